// Where the frames of the input begin and end, by their lengths.
ghost use Rattle.std.specs.Prelude.{◌≡◌, ◌≤◌, length};

use wire::{FRAMING, le16};

// A frame of some bytes, and the place where it starts.
#[derive(Clone, Copy)]
pub struct Placed<'a> {
    pub start: usize,
    pub frame: &'a [u8],
}

// The frames that bytes hold, one after another. A frame has as many data bytes as its length says, and the framing;
// the last one has fewer if the bytes end first.
#[derive(Drop)]
pub struct Frames<'a> {
    bytes: &'a [u8],
    start: usize,
}

impl<'a> Frames<'a> {
    // Begins with the frame at the front.
    pub fn of(bytes: &'a [u8]) -> Self
        ensures over { result.bytes.now ≡ bytes.now }
    {
        Frames { bytes, start: 0 }
    }
}

impl<'a> Iterator for Frames<'a> {
    ghost use Rattle.std.specs.Prelude.{◌≡◌, ◌-◌, length, IfSome};
    ghost use Rattle.std.specs.Iterator.{at_most};
    ghost use Rattle.recovery.specs.Frames.{Lies};

    type Item = Placed<'a>;

    // The bytes stay. A frame starts at the place, and the next one where it ends.
    ghost next_gives = { λ s r t. (t.bytes.now ≡ s.bytes.now) × IfSome r (λ p. Lies s.bytes.now s.start p t.start) };

    ghost remaining = { λ s. at_most (length s.bytes.now - s.start) };

    fn next(&mut self) -> Option<Placed<'a>> {
        let start = self.start;
        let rest = self.bytes.get(start..)?;
        if rest.is_empty() {
            return None;
        }
        let size = match le16(rest, 4) {
            Some(len) => rest.len().min(usize::from(len) + FRAMING),
            None => rest.len(),
        };
        self.start += size;
        Some(Placed {
            start,
            frame: &rest[..size],
        })
    }
}

// Returns the first start of a frame at a place or after it, or the input's end.
pub fn boundary(bytes: &[u8], place: usize) -> usize
    requires inside { place ≤ length bytes.now }
    ensures after { (place ≤ result) × (result ≤ length bytes.now) }
{
    for placed in Frames::of(bytes) {
        if place <= placed.start {
            return placed.start;
        }
    }
    bytes.len()
}
