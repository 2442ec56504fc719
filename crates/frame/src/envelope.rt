// The envelope of a frame: header, length and tail around the data, with nothing before or after.
ghost use Rattle.std.specs.Prelude.{◌≡◌};
ghost use Rattle.frame.specs.Envelope.{envelope};

use refusal::Check;
use wire::{FRAMING, Kind, bytes_eq, family_of, le16, tail_of};

// Where the data of a frame begin: after the header and the length.
pub const DATA_START: usize = FRAMING - 4;

// The envelope of a frame: the frame's kind, and the place where its data end.
#[derive(Clone, Copy)]
pub struct Envelope {
    pub kind: Kind,
    pub end: usize,
}

impl Envelope {
    // Makes the checks F1 to F4, and gives the first that fails. The stream's limits on the length do not hold here:
    // the data may have 0 to 65,535 bytes.
    #[tactic(auto, using(crate::proofs::Opened::short_family, crate::proofs::Opened::fails_F1, crate::proofs::Opened::fails_F2, crate::proofs::Opened::fails_F3, crate::proofs::Opened::fails_F4, crate::proofs::Opened::passes))]
    pub fn open(bytes: &[u8]) -> Result<Envelope, Check>
        ensures opened { result ≡ envelope bytes.now }
    {
        let head = bytes.get(..4).ok_or(Check::F1)?;
        let kind = family_of(head).ok_or(Check::F1)?;
        let len = le16(bytes, 4).ok_or(Check::F2)?;
        let end = DATA_START + len as usize;
        let tail = bytes.get(end..).ok_or(Check::F3)?;
        if !bytes_eq(tail, &tail_of(kind)) {
            return Err(Check::F4);
        }
        Ok(Envelope { kind, end })
    }
}
