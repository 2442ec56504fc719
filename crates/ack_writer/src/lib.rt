// The writer of acknowledgement frames, as the module sends them.
//
// It writes each value that the reader of frames can give, with a payload of at most 50 bytes, and refuses every other.

#![tactic(auto)]

ghost use Rattle.std.specs.Prelude.{◌≡◌, false, length};
ghost use Rattle.writer.specs.Written.{write_result, buffer_after, WriteCauses};
ghost use Rattle.writer.specs.RoundTrip.{RoundTrip};
ghost use Rattle.ack_writer.specs.Frame.{ack_frame, writable, unrepresentable};
ghost use Rattle.ack_writer.specs.RoundTrip.{ack_value, acks};

use refusal::Error;
use wire::{ACK_BIT, Kind, MAX_DATA};
use writer::{put, put_frame, put_u16};

// Where an acknowledgement's payload begins in its data.
const PAYLOAD_START: usize = 4;

// Longest payload of an acknowledgement that the stream parser accepts.
const MAX_PAYLOAD: usize = MAX_DATA - PAYLOAD_START;

// Tests whether a value can be written: its word's ACK bit is clear, `ok` agrees with the status, the payload fits.
#[tactic(auto, unfolding(crate::specs::Frame::writable))]
fn writable(word: u16, ok: bool, status: u16, payload: &[u8]) -> bool
    ensures tested { result ≡ writable word ok status payload.now }
{
    word / ACK_BIT % 2 == 0 && ok == (status == 0) && payload.len() <= MAX_PAYLOAD
}

// Writes the frame of an acknowledgement into the front of `out`, and returns the number of bytes written. Refuses with
// 6 a value that the reader cannot give or a payload above 50 bytes, then with 4 a buffer shorter than the frame. Bytes
// after the frame stay, and a refused call changes none.
#[tactic(auto, unfolding(crate::specs::Frame::writable))]
pub fn write_ack(
    out: &mut [u8],
    word: u16,
    ok: bool,
    status: u16,
    payload: &[u8],
) -> Result<usize, Error>
    ensures told { result ≡ write_result (unrepresentable word ok status payload.now)
        (ack_frame word status payload.now) (length out.old) }
    ensures left { out.new ≡ buffer_after (unrepresentable word ok status payload.now)
        (ack_frame word status payload.now) out.old }
    ensures causes { WriteCauses 6 (writable word ok status payload.now ≡ false)
        (ack_frame word status payload.now) (length out.old) result }
    ensures round { RoundTrip acks (ack_value word ok status payload.now) }
{
    if !writable(word, ok, status, payload) {
        return Err(Error::Unrepresentable);
    }
    // The data stand in an array with their length beside it: the link's crates have no heap.
    let mut data = [0; MAX_DATA];
    put_u16(&mut data, 0, word + ACK_BIT);
    put_u16(&mut data, 2, status);
    put(&mut data, PAYLOAD_START, payload);
    put_frame(out, Kind::Command, &data[..PAYLOAD_START + payload.len()])
}
