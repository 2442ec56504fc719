// The two kinds of frames: their headers and tails, and the kind that bytes announce.
ghost use Rattle.std.specs.Prelude.{◌≡◌};
ghost use Rattle.wire.specs.Family.{header, tail, starting_with, header_of};

use super::Kind;
use crate::byte_string::bytes_eq;

impl Kind {
    pub const REPORT_HEADER: [u8; 4] = [0xF4, 0xF3, 0xF2, 0xF1];

    pub const REPORT_TAIL: [u8; 4] = [0xF8, 0xF7, 0xF6, 0xF5];

    pub const COMMAND_HEADER: [u8; 4] = [0xFD, 0xFC, 0xFB, 0xFA];

    pub const COMMAND_TAIL: [u8; 4] = [0x04, 0x03, 0x02, 0x01];

    // Returns the kind whose header starts with `byte`, if any.
    pub fn starting_with(byte: u8) -> Option<Kind>
        ensures found { result ≡ starting_with byte }
    {
        match byte {
            0xF4 => Some(Kind::Report),
            0xFD => Some(Kind::Command),
            _ => None,
        }
    }
}

// Returns the four bytes that begin a frame of the kind. It and `tail_of` are two tables of one shape, so one function
// would be no plainer.
pub fn header_of(kind: Kind) -> [u8; 4]
    ensures headed { result ≡ header kind }
{
    match kind {
        Kind::Report => Kind::REPORT_HEADER,
        Kind::Command => Kind::COMMAND_HEADER,
    }
}

// Returns the four bytes that end a frame of the kind.
pub fn tail_of(kind: Kind) -> [u8; 4]
    ensures tailed { result ≡ tail kind }
{
    match kind {
        Kind::Report => Kind::REPORT_TAIL,
        Kind::Command => Kind::COMMAND_TAIL,
    }
}

// Returns the kind whose header the bytes are, if they are one.
pub fn family_of(bytes: &[u8]) -> Option<Kind>
    ensures found { result ≡ header_of bytes.now }
{
    if bytes_eq(bytes, &Kind::REPORT_HEADER) {
        return Some(Kind::Report);
    }
    if bytes_eq(bytes, &Kind::COMMAND_HEADER) {
        return Some(Kind::Command);
    }
    None
}
