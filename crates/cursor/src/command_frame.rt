// The frames of commands: a word and its value, written through a cursor that holds the caller's slice.
//
// `put_value` tests that the whole frame fits before anything is put, so a refused call changes no byte.
ghost use Rattle.std.specs.Prelude.{◌≡◌, length, None};
ghost use Rattle.writer.specs.Written.{write_result, buffer_after};
ghost use Rattle.cursor.specs.Parts.{told_all, moved_all};
ghost use Rattle.cursor.specs.CommandFrame.{frame_with, size_with, value_parts, parts};

use crate::Cursor;
use refusal::Error;
use wire::{FRAMING, Kind, header_of, tail_of};

// What follows a command's word: nothing, a two-byte number, or the values of three records.
#[derive(Clone, Copy)]
pub enum Value {
    None,
    Number(u16),
    Records(u32, u32, u32),
}

impl Value {
    // Returns the size of a command's frame with this value, header to tail: 12 bytes without one, 14 with a two-byte
    // number, 30 with three records.
    pub fn framed_len(self) -> usize
        ensures counted { result ≡ size_with self }
    {
        match self {
            Value::None => FRAMING + 2,
            Value::Number(_) => FRAMING + 2 + 2,
            Value::Records(_, _, _) => FRAMING + 2 + 3 * (2 + 4),
        }
    }
}

// Writes the frame of a command with the word and the value. Refuses with 4 a buffer shorter than the frame.
pub fn put_value(out: &mut [u8], word: u16, value: Value) -> Result<usize, Error>
    ensures told { result ≡ write_result None (frame_with word value) (length out.old) }
    ensures left { out.new ≡ buffer_after None (frame_with word value) out.old }
{
    let needed = value.framed_len();
    if out.len() < needed {
        return Err(Error::BufferTooSmall { needed });
    }
    let mut cursor = Cursor::new(out, needed);
    cursor.frame(word, value)
}

impl<'a> Cursor<'a> {
    // Puts the parts of a command's frame in turn, up to the first that does not fit.
    fn frame(&mut self, word: u16, value: Value) -> Result<usize, Error>
        ensures told { result ≡ told_all self.old (parts word value) }
        ensures left { self.new ≡ moved_all self.old (parts word value) }
    {
        self.put(&header_of(Kind::Command))?;
        self.u16((value.framed_len() - FRAMING) as u16)?;
        self.u16(word)?;
        self.value(value)?;
        self.put(&tail_of(Kind::Command))
    }

    // Puts the parts of a value in turn, up to the first that does not fit.
    fn value(&mut self, value: Value) -> Result<usize, Error>
        ensures told { result ≡ told_all self.old (value_parts value) }
        ensures left { self.new ≡ moved_all self.old (value_parts value) }
    {
        match value {
            Value::None => Ok(self.pos),
            Value::Number(v) => self.u16(v),
            Value::Records(a, b, c) => {
                self.record(0, a)?;
                self.record(1, b)?;
                self.record(2, c)
            }
        }
    }
}
