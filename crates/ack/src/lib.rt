// Acknowledgements of the LD2410: reading one from a frame's data, testing it for a word, and reading its reply.
//
// The Rust's `Ack` borrows its payload. Here an `Ack` has the payload's span, and a reply takes the bytes too.

#![tactic(auto, unfolding(crate::specs::Ack::checked_ack, crate::specs::Ack::ack_of, wire::specs::Number::number_at))]

mod span;

ghost use Rattle.std.specs.Prelude.{◌≡◌, true};
ghost use Rattle.refusal.specs.Refusal.{returned};
ghost use Rattle.refusal.specs.Check.{Causes};
ghost use Rattle.ack.specs.Ack.{ack_checks, checked_ack, parsed_ack, no_ack};
ghost use Rattle.ack.specs.Awaited.{expected, no_span, AwaitedCauses, replied, ReplyCauses};
ghost use Rattle.reply.specs.Replies.{enable_config_reply, no_enable_config, firmware_reply, no_firmware};
ghost use Rattle.reply.specs.Replies.{mac_reply, no_mac};
ghost use Rattle.reply.specs.Parameters.{parameters_reply, no_parameters};

use refusal::{Check, Error};
use reply::{
    EnableConfig, FirmwareVersion, Mac, Parameters, read_enable_config, read_firmware_version,
    read_mac, read_parameters,
};
pub use span::Span;
use span::payload;
use wire::{ACK_BIT, le16, word};

// An acknowledgement from the module. Its word is the command's, with the ACK bit cleared, so that it compares directly
// with the constants of `wire::word`. Reading sets `ok` exactly if the status is 0; a caller may set it otherwise, and
// `write_ack` refuses that.
#[derive(Clone, Copy)]
pub struct Ack {
    pub payload: Span,
    pub word: u16,
    pub status: u16,
    pub ok: bool,
}

impl Ack {
    // Reads the data of a command frame as an acknowledgement. Refuses with 1 data that are shorter than four bytes, or
    // whose ACK bit is not set (a command of the host).
    pub fn parse(data: &[u8]) -> Result<Ack, Error>
        ensures parsed { result ≡ parsed_ack «data».now }
        ensures causes { Causes no_ack ack_checks «data».now (returned no_ack result) }
    {
        Ok(checked_ack(data)?)
    }

    // Returns the payload's span, if this acknowledges `word` with success. Refuses with 1 another command's
    // acknowledgement, then with 3 a failure that the module reported.
    pub fn expect(self, word: u16) -> Result<Span, Error>
        ensures awaited { result ≡ expected self word }
        ensures causes { AwaitedCauses no_span self word true (returned no_span result) }
    {
        if self.word != word {
            return Err(Error::InvalidFormat);
        }
        if !self.ok {
            return Err(Error::Hardware);
        }
        Ok(self.payload)
    }

    // The four replies keep a call each, of two lines: a trait with the word, the reader and the reply's definition as
    // members would take as many lines as it spares.

    // Reads the reply to `ENABLE_CONFIG` from the bytes that hold the payload. Refuses as `expect` does, then with 1 a
    // short payload.
    pub fn enable_config(self, bytes: &[u8]) -> Result<EnableConfig, Error>
        ensures answered { result ≡ replied enable_config_reply self bytes.now }
        ensures causes { ReplyCauses no_enable_config enable_config_reply self bytes.now
            (returned no_enable_config result) }
    {
        let span = self.expect(word::ENABLE_CONFIG)?;
        read_enable_config(payload(bytes, span))
    }

    // Reads the reply to `READ_FIRMWARE`. Refuses as `enable_config` does.
    pub fn firmware_version(self, bytes: &[u8]) -> Result<FirmwareVersion, Error>
        ensures answered { result ≡ replied firmware_reply self bytes.now }
        ensures causes { ReplyCauses no_firmware firmware_reply self bytes.now (returned no_firmware result) }
    {
        let span = self.expect(word::READ_FIRMWARE)?;
        read_firmware_version(payload(bytes, span))
    }

    // Reads the reply to `READ_PARAMETERS`. Refuses as `enable_config` does, and with 1 a payload that does not begin
    // with AA or has more than nine gates.
    pub fn parameters(self, bytes: &[u8]) -> Result<Parameters, Error>
        ensures answered { result ≡ replied parameters_reply self bytes.now }
        ensures causes { ReplyCauses no_parameters parameters_reply self bytes.now (returned no_parameters result) }
    {
        let span = self.expect(word::READ_PARAMETERS)?;
        read_parameters(payload(bytes, span))
    }

    // Reads the reply to `READ_MAC`. Refuses as `enable_config` does.
    pub fn mac(self, bytes: &[u8]) -> Result<Mac, Error>
        ensures answered { result ≡ replied mac_reply self bytes.now }
        ensures causes { ReplyCauses no_mac mac_reply self bytes.now (returned no_mac result) }
    {
        let span = self.expect(word::READ_MAC)?;
        read_mac(payload(bytes, span))
    }
}

// Reads an acknowledgement's data by the checks A1 and A2. Returns the acknowledgement, or the first check that fails.
pub fn checked_ack(data: &[u8]) -> Result<Ack, Check>
    ensures read { result ≡ checked_ack «data».now }
{
    let Some(raw) = le16(data, 0) else {
        return Err(Check::A1);
    };
    let Some(status) = le16(data, 2) else {
        return Err(Check::A1);
    };
    if raw / ACK_BIT % 2 == 0 {
        return Err(Check::A2);
    }
    Ok(Ack {
        word: raw - ACK_BIT,
        ok: status == 0,
        status,
        payload: Span {
            start: 4,
            len: data.len() - 4,
        },
    })
}
