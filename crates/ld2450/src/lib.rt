// The LD2450, a module that reports three targets: its frame, read and written.

#![tactic(auto)]

mod signed;
mod targets;

ghost use Rattle.std.specs.Prelude.{◌≡◌, true, false, length, IfOk, MatchOption};
ghost use Rattle.refusal.specs.Refusal.{returned};
ghost use Rattle.writer.specs.Written.{write_result, buffer_after, WriteCauses};
ghost use Rattle.writer.specs.RoundTrip.{RoundTrip};
ghost use Rattle.ld2450.specs.Target.{three_of};
ghost use Rattle.ld2450.specs.Frame.{is_frame, held_in, no_targets, parsed_targets};
ghost use Rattle.ld2450.specs.Frame.{ReadCauses, OneAnswer};
ghost use Rattle.ld2450.specs.Bytes.{all_writable, unrepresentable, targets_frame, SomeUnsayable};
ghost use Rattle.ld2450.specs.RoundTrip.{target_frames};
ghost use Rattle.ld2450.specs.Claims.{Examples, WrittenExample};

pub use refusal::{Error, refusal_number};
pub use targets::Target;
use targets::{target_bytes, target_of, writable};
use writer::put;

// The number of targets in a frame.
pub const TARGETS: usize = 3;

// Bytes of a target.
const TARGET_LEN: usize = 8;

// Bytes of a frame's targets.
pub const HELD_LEN: usize = TARGETS * TARGET_LEN;

// Bytes of a frame, header to tail inclusive.
pub const FRAME_LEN: usize = HEADER.len() + HELD_LEN + TAIL.len();

// The header and the tail of a frame.
const HEADER: [u8; 4] = [0xAA, 0xFF, 0x03, 0x00];

const TAIL: [u8; 2] = [0x55, 0xCC];

// Reads the three targets from a frame's bytes between header and tail.
pub fn read_held(held: &[u8; HELD_LEN]) -> [Target; TARGETS]
    ensures read { result ≡ three_of held.now }
{
    [
        target_of(&held[0..8]),
        target_of(&held[8..16]),
        target_of(&held[16..24]),
    ]
}

// Returns the bytes between header and tail, or `None` if the bytes are no frame.
fn held_in(bytes: &[u8]) -> Option<&[u8; HELD_LEN]>
    ensures found { MatchOption result (is_frame bytes.now ≡ false)
        (λ held. (is_frame bytes.now ≡ true) × (held.now ≡ held_in bytes.now)) }
{
    bytes.strip_prefix(&HEADER)?.strip_suffix(&TAIL)?.as_array()
}

// Reads one whole frame, header to tail. Refuses with 1 any other bytes.
pub fn read_targets(bytes: &[u8]) -> Result<[Target; TARGETS], Error>
    ensures parsed { result ≡ parsed_targets bytes.now }
    ensures causes { ReadCauses bytes.now (returned no_targets result) }
    ensures alone { OneAnswer bytes.now }
    ensures writable { IfOk result (λ targets. all_writable targets ≡ true) }
    ensures examples { Examples }
{
    held_in(bytes).map(read_held).ok_or(Error::InvalidFormat)
}

// Tests whether the reader can give each of the targets.
fn all_writable(targets: &[Target; TARGETS]) -> bool
    ensures tested { result ≡ all_writable targets.now }
{
    targets.iter().all(|target| writable(*target))
}

// Writes the frame of three targets into the front of `out`, and returns the number of bytes written. Refuses with 6 a
// target that the reader cannot give, then with 4 a buffer shorter than the frame. Bytes after the frame stay, and a
// refused call changes none.
pub fn write_targets(out: &mut [u8], targets: [Target; TARGETS]) -> Result<usize, Error>
    ensures examples { WrittenExample }
    ensures told { result ≡ write_result (unrepresentable targets) (targets_frame targets)
        (length out.old) }
    ensures left { out.new ≡ buffer_after (unrepresentable targets) (targets_frame targets)
        out.old }
    ensures causes { WriteCauses 6 (SomeUnsayable targets) (targets_frame targets)
        (length out.old) result }
    ensures round { RoundTrip target_frames targets }
{
    if !all_writable(&targets) {
        return Err(Error::Unrepresentable);
    }
    if out.len() < FRAME_LEN {
        return Err(Error::BufferTooSmall { needed: FRAME_LEN });
    }
    // The whole frame fits, so each put finds its place.
    put(out, 0, &HEADER);
    put(out, 4, &target_bytes(targets[0]));
    put(out, 12, &target_bytes(targets[1]));
    put(out, 20, &target_bytes(targets[2]));
    put(out, 28, &TAIL);
    Ok(FRAME_LEN)
}
