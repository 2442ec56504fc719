// What both directions of the LD2410's serial link share: its sizes, the two kinds of frames, the command words, and a
// value for each gate.

#![tactic(auto)]

mod byte_string;
mod kinds;
mod number;
pub mod word;

ghost use Rattle.std.specs.Prelude.{◌≡◌};
ghost use Rattle.wire.specs.Prefix.{padded};
ghost use Rattle.wire.specs.Gate.{gate_values};

pub use byte_string::{bytes_eq, copy_at, copy_prefix};
pub use kinds::{family_of, header_of, tail_of};
pub use number::{bump, byte_at, le16, le32};

// Number of distance gates the module reports: gates 0 to 8.
pub const GATES: usize = 9;

// Largest frame the stream parser accepts, header to tail inclusive.
pub const MAX_FRAME: usize = 64;

// Bytes of framing around the data: header (4), length (2), tail (4).
pub const FRAMING: usize = 10;

// Largest length the stream parser accepts.
pub const MAX_DATA: usize = MAX_FRAME - FRAMING;

// Reserved bytes kept from an engineering report.
pub const MAX_EXTRA: usize = 8;

// The bit that the module sets in an acknowledgement's command word.
pub const ACK_BIT: u16 = 0x0100;

// The kind of a frame, which its header announces.
#[derive(Clone, Copy, PartialEq, Eq)]
pub enum Kind {
    Report,
    Command,
}

// A value for each gate; the first `count` are valid. It is an array with its count, since document 01 asks for these
// two and the link has no heap; it is no type of any size, since the customer's calls name it and `ExtraBytes`.
#[derive(Clone, Copy)]
pub struct GateValues {
    pub bytes: [u8; GATES],
    pub count: usize,
}

// Returns the first `count` of the values, or all of them if there are fewer.
pub fn gate_values(bytes: [u8; GATES], count: usize) -> GateValues
    ensures made { result ≡ gate_values bytes count }
{
    GateValues {
        bytes,
        count: count.min(GATES),
    }
}

// Returns the first bytes of `src` in an array with a place for each gate, 0 where `src` has none. It moves nine bytes
// at most, so a byte counts them.
pub fn gate_array(src: &[u8]) -> [u8; GATES]
    ensures copied { result ≡ padded 9 src.now }
{
    let mut bytes = [0; GATES];
    let count = src.len().min(GATES) as u8;
    for gate in 0..count {
        bytes[gate as usize] = src[gate as usize];
    }
    bytes
}

// Returns the first bytes of `src` in an array of `N`, with zeros after them if `src` has fewer.
pub fn zero_padded<const N: usize>(src: &[u8]) -> [u8; N]
    ensures copied { result ≡ padded N src.now }
{
    let mut bytes = [0; N];
    let count = src.len().min(N);
    bytes[..count].copy_from_slice(&src[..count]);
    bytes
}
