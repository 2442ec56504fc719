// The rows about acknowledgements. A row has the refusal, the acknowledgement's fields, what `expect` of a word
// refuses, and the reply that the payload holds, if the word has one.
use crate::frames::Front;
use crate::hex::Hex;
use ld2410::{Ack, Error, Frame, word};
use refusal::refusal_number;
use std::fmt;

// A whole frame that holds an acknowledgement, where the word is awaited.
#[derive(Drop)]
pub struct AckFrame<'a> {
    pub frame: &'a [u8],
    pub awaited: u16,
}

impl fmt::Display for AckFrame<'_> {
    fn fmt<W: fmt::Write>(&self, f: &mut fmt::Formatter<W>) -> fmt::Result {
        let AckFrame { frame, awaited } = *self;
        let read = Frame::parse(frame);
        write!(f, "{}", Front(read))?;
        if let Ok(Frame::Ack(ack)) = read {
            let fields = Fields { ack, awaited };
            let reply = Reply {
                ack,
                awaited,
                frame,
            };
            write!(f, ", {fields}{reply}")?;
        }
        Ok(())
    }
}

// An acknowledgement's data, where the word is awaited.
#[derive(Drop)]
pub struct AckData<'a> {
    pub data: &'a [u8],
    pub awaited: u16,
}

impl fmt::Display for AckData<'_> {
    fn fmt<W: fmt::Write>(&self, f: &mut fmt::Formatter<W>) -> fmt::Result {
        let awaited = self.awaited;
        match Ack::parse(self.data) {
            Ok(ack) => write!(f, "refusal 0, {}", Fields { ack, awaited }),
            Err(e) => write!(f, "refusal {}", e.number()),
        }
    }
}

// An acknowledgement, and what `expect` of the awaited word refuses.
#[derive(Drop)]
struct Fields {
    ack: Ack,
    awaited: u16,
}

impl fmt::Display for Fields {
    fn fmt<W: fmt::Write>(&self, f: &mut fmt::Formatter<W>) -> fmt::Result {
        let Fields { ack, awaited } = *self;
        let refusal = refusal_number(ack.expect(awaited));
        write!(
            f,
            "word {:04x}, ok {}, status {:04x}, payload {} {}, awaited {awaited:04x}: {refusal}",
            ack.word,
            u8::from(ack.ok),
            ack.status,
            ack.payload.start,
            ack.payload.len
        )
    }
}

// The reply to the awaited word, which an acknowledgement's payload in the frame holds. Most words have none.
#[derive(Drop)]
struct Reply<'a> {
    ack: Ack,
    awaited: u16,
    frame: &'a [u8],
}

impl fmt::Display for Reply<'_> {
    fn fmt<W: fmt::Write>(&self, f: &mut fmt::Formatter<W>) -> fmt::Result {
        match self.awaited {
            word::ENABLE_CONFIG => self.enable_config(f),
            word::READ_FIRMWARE => self.firmware_version(f),
            word::READ_MAC => self.mac(f),
            word::READ_PARAMETERS => self.parameters(f),
            _ => Ok(()),
        }
    }
}

impl Reply<'_> {
    fn enable_config<W: fmt::Write>(&self, f: &mut fmt::Formatter<W>) -> fmt::Result {
        match self.ack.enable_config(self.frame) {
            Ok(config) => write!(
                f,
                ", version {}, buffer {}",
                config.protocol_version, config.buffer_size
            ),
            Err(e) => refused(f, e),
        }
    }

    fn firmware_version<W: fmt::Write>(&self, f: &mut fmt::Formatter<W>) -> fmt::Result {
        match self.ack.firmware_version(self.frame) {
            Ok(version) => write!(
                f,
                ", type {:04x}, major {:04x}, minor {:08x}",
                version.firmware_type, version.major, version.minor
            ),
            Err(e) => refused(f, e),
        }
    }

    fn mac<W: fmt::Write>(&self, f: &mut fmt::Formatter<W>) -> fmt::Result {
        match self.ack.mac(self.frame) {
            Ok(mac) => write!(f, ", reply 0, address{}", Hex(&mac.0)),
            Err(e) => refused(f, e),
        }
    }

    fn parameters<W: fmt::Write>(&self, f: &mut fmt::Formatter<W>) -> fmt::Result {
        match self.ack.parameters(self.frame) {
            Ok(p) => write!(
                f,
                ", reply 0, farthest {:02x} {:02x} {:02x}, moving{}, stationary{}, seconds {}",
                p.max_gate,
                p.max_moving_gate,
                p.max_stationary_gate,
                Hex(&p.moving_sensitivity),
                Hex(&p.stationary_sensitivity),
                p.no_one_secs
            ),
            Err(e) => refused(f, e),
        }
    }
}

// Writes the refusal of a reply.
fn refused<W: fmt::Write>(f: &mut fmt::Formatter<W>, refusal: Error) -> fmt::Result {
    write!(f, ", reply {}", refusal.number())
}
