// Whole frames of the LD2410: header, length, data and tail, with nothing before or after, and what the data are read
// as.
//
// The Rust's `Frame` borrows an acknowledgement's payload. Here the payload is a span of the bytes that were read.

#![tactic(auto)]

mod envelope;

ghost use Rattle.std.specs.Prelude.{◌≡◌};
ghost use Rattle.refusal.specs.Check.{Causes};
ghost use Rattle.frame.specs.Frame.{decoded, checks_for, checked_frame, parsed_frame, no_fields, returned_frame};

use ack::{Ack, Span, checked_ack};
pub use envelope::{DATA_START, Envelope};
use refusal::{Check, Error};
use report::{Report, checked_report};
use wire::Kind;

// A frame: a report or an acknowledgement.
#[derive(Clone, Copy)]
pub enum Frame {
    Report(Report),
    Ack(Ack),
}

// Where an acknowledgement's payload begins in its data.
const PAYLOAD_START: usize = 4;

impl Frame {
    // Decodes the data of a frame of this kind. A payload's span begins at `start`, since it may refer to more bytes
    // than the data.
    #[tactic(auto, unfolding(crate::specs::Frame::decoded, report::specs::Check::checked_report, ack::specs::Ack::checked_ack))]
    fn decode_at(kind: Kind, data: &[u8], start: usize) -> Result<Frame, Check>
        ensures decoded { result ≡ decoded start kind «data».now }
    {
        match kind {
            Kind::Report => Ok(Frame::Report(checked_report(data)?)),
            Kind::Command => {
                let ack = checked_ack(data)?;
                let payload = Span {
                    start,
                    ..ack.payload
                };
                Ok(Frame::Ack(Ack { payload, ..ack }))
            }
        }
    }

    // Decodes one whole frame and gives the first check that it fails: F1 to F4, then the body's. A payload's span
    // refers to `bytes`. The stream's limits on the length do not hold here: the data may have 0 to 65,535 bytes.
    #[tactic(auto, using(crate::proofs::FrameChecked::fails_framing, crate::proofs::FrameChecked::passes_part))]
    fn checked(bytes: &[u8]) -> Result<Frame, Check>
        ensures checked { result ≡ checked_frame bytes.now }
    {
        let Envelope { kind, end } = Envelope::open(bytes)?;
        Frame::decode_at(kind, &bytes[DATA_START..end], DATA_START + PAYLOAD_START)
    }

    // Decodes one whole frame held in `bytes`. Refuses with 1 if F1 to F4 or the body's layout fail, with 2 if the
    // report's type is unknown.
    #[tactic(auto, using(crate::proofs::FrameChecked::parsed_causes), unfolding(crate::specs::Frame::parsed_frame))]
    pub fn parse(bytes: &[u8]) -> Result<Frame, Error>
        ensures parsed { result ≡ parsed_frame bytes.now }
        ensures causes { Causes no_fields (checks_for bytes.now) bytes.now
            (returned_frame result) }
    {
        Ok(Frame::checked(bytes)?)
    }
}

// Decodes the data of a frame of this kind. A payload's span refers to the data.
pub fn decode_data(kind: Kind, data: &[u8]) -> Result<Frame, Check>
    ensures decoded { result ≡ decoded 4 kind «data».now }
{
    Frame::decode_at(kind, data, PAYLOAD_START)
}
