// The frames of commands: whole command frames with a word whose ACK bit is clear.
ghost use Rattle.std.specs.Prelude.{◌≡◌, ◌↔◌, true};
ghost use Rattle.command_reader.specs.CommandFrame.{IsCommandFrame, number_in};

use frame::{DATA_START, Envelope};
use wire::{ACK_BIT, Kind, le16};

// Returns the two-byte number at `at`, or 0 if the bytes are too few.
#[tactic(auto, unfolding(crate::specs::CommandFrame::number_in))]
pub(crate) fn number_in(bytes: &[u8], at: usize) -> u16
    ensures read { result ≡ number_in bytes.now at }
{
    le16(bytes, at).unwrap_or(0)
}

// Tests whether the bytes are the frame of a command, known or not: F1 to F4 hold, the kind is command, the data begin
// with a word, and its ACK bit is clear.
pub(crate) fn is_command_frame(bytes: &[u8]) -> bool
    ensures tested { (result ≡ true) ↔ IsCommandFrame bytes.now }
{
    let Ok(envelope) = Envelope::open(bytes) else {
        return false;
    };
    if envelope.kind != Kind::Command {
        return false;
    }
    if envelope.end < DATA_START + 2 {
        return false;
    }
    number_in(bytes, DATA_START) / ACK_BIT % 2 == 0
}
