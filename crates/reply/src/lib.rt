// The replies that an acknowledgement's payload holds, by the command that it answers. Three of the four are read here,
// the fourth in parameters.rt.

#![tactic(auto, unfolding(wire::specs::Number::number_at, wire::specs::Prefix::padded))]

mod parameters;
mod parameters_head;

ghost use Rattle.std.specs.Prelude.{◌≡◌};
ghost use Rattle.reply.specs.Reply.{reply_as};
ghost use Rattle.reply.specs.Replies.{enable_config_reply, firmware_reply, mac_reply};

pub use parameters::{Parameters, read_parameters};
use refusal::Error;
use wire::{le16, le32, zero_padded};

// The reply to the command `ENABLE_CONFIG`.
#[derive(Clone, Copy)]
pub struct EnableConfig {
    pub protocol_version: u16,
    // The size of the module's receive buffer, in bytes.
    pub buffer_size: u16,
}

// The reply to the command `READ_FIRMWARE`.
#[derive(Clone, Copy)]
pub struct FirmwareVersion {
    // 0000 on the LD2410, 0100 on the LD2410C.
    pub firmware_type: u16,
    // The high byte, then the low byte of the printed version.
    pub major: u16,
    // Printed as eight hexadecimal digits: a build date.
    pub minor: u32,
}

// The reply to the command `READ_MAC`: six address bytes in transmission order.
#[derive(Clone, Copy)]
pub struct Mac(pub [u8; 6]);

// Reads a payload that answers `ENABLE_CONFIG`.
pub fn read_enable_config(payload: &[u8]) -> Result<EnableConfig, Error>
    ensures read { result ≡ reply_as enable_config_reply payload.now }
{
    let Some(protocol_version) = le16(payload, 0) else {
        return Err(Error::InvalidFormat);
    };
    let Some(buffer_size) = le16(payload, 2) else {
        return Err(Error::InvalidFormat);
    };
    Ok(EnableConfig {
        protocol_version,
        buffer_size,
    })
}

// Reads a payload that answers `READ_FIRMWARE`.
pub fn read_firmware_version(payload: &[u8]) -> Result<FirmwareVersion, Error>
    ensures read { result ≡ reply_as firmware_reply payload.now }
{
    let Some(firmware_type) = le16(payload, 0) else {
        return Err(Error::InvalidFormat);
    };
    let Some(major) = le16(payload, 2) else {
        return Err(Error::InvalidFormat);
    };
    let Some(minor) = le32(payload, 4) else {
        return Err(Error::InvalidFormat);
    };
    Ok(FirmwareVersion {
        firmware_type,
        major,
        minor,
    })
}

// Reads a payload that answers `READ_MAC`.
pub fn read_mac(payload: &[u8]) -> Result<Mac, Error>
    ensures read { result ≡ reply_as mac_reply payload.now }
{
    let Some(address) = payload.get(..6) else {
        return Err(Error::InvalidFormat);
    };
    Ok(Mac(zero_padded(address)))
}
