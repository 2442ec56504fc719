// A writer that holds the caller's slice: it puts bytes, numbers and records one after the other, each whole or not at
// all.
//
// Every method is total: with too little space it refuses with 4 and the bytes needed in all, and neither the slice nor
// the position changes. `Cursor` is private to this crate, and so is its 4. To a caller 4 means that the output is
// shorter than the frame, which `put_value` tests before anything is put.

#![tactic(auto)]

mod command_frame;

ghost use Rattle.std.specs.Prelude.{◌≡◌, ◌++◌};
ghost use Rattle.wire.specs.Number.{le_bytes};
ghost use Rattle.cursor.specs.Held.{next_at, told_by, told, moved};

pub use command_frame::{Value, put_value};
use refusal::Error;
use writer::{put, put_record, put_u16};

// The caller's slice, the position of the next byte in it, and the bytes needed in all, which a refusal gives.
#[derive(Drop)]
struct Cursor<'a> {
    out: &'a mut [u8],
    pos: usize,
    needed: usize,
}

impl<'a> Cursor<'a> {
    // Makes a cursor at the front of the slice.
    fn new(out: &'a mut [u8], needed: usize) -> Cursor<'a>
        ensures made { (result.out ≡ out.entry) × (result.pos ≡ 0) × (result.needed ≡ needed) }
    {
        Cursor {
            out,
            pos: 0,
            needed,
        }
    }

    // Puts the bytes. This and the two below are thin walks over three plain puts, as the customer asks.
    fn put(&mut self, bytes: &[u8]) -> Result<usize, Error>
        ensures told { result ≡ told self.old bytes.now }
        ensures left { self.new ≡ moved self.old bytes.now }
    {
        let end = put(&mut *self.out, self.pos, bytes);
        self.step(end)
    }

    // Puts a two-byte number.
    fn u16(&mut self, v: u16) -> Result<usize, Error>
        ensures told { result ≡ told self.old (le_bytes 2 v) }
        ensures left { self.new ≡ moved self.old (le_bytes 2 v) }
    {
        let end = put_u16(&mut *self.out, self.pos, v);
        self.step(end)
    }

    // Puts a record: a parameter's number in two bytes, its value in four.
    fn record(&mut self, param: u16, value: u32) -> Result<usize, Error>
        ensures told { result ≡ told self.old (le_bytes 2 param ++ le_bytes 4 value) }
        ensures left { self.new ≡ moved self.old (le_bytes 2 param ++ le_bytes 4 value) }
    {
        let end = put_record(&mut *self.out, self.pos, param, value);
        self.step(end)
    }

    // Moves to the place after a put, or refuses with 4 if the put answered none.
    fn step(&mut self, end: Option<usize>) -> Result<usize, Error>
        ensures told { result ≡ told_by self.old.needed end }
        ensures left { self.new ≡ record self.old { pos = next_at self.old.pos end } }
    {
        self.pos = end.unwrap_or(self.pos);
        end.ok_or(Error::BufferTooSmall {
            needed: self.needed,
        })
    }
}
