// The lines of the answers. They gather in a buffer, which goes to its writer whenever it is full.
//
// No contract can name what is printed: each says what the buffer holds then, and that after a full buffer a byte is
// put in front. What a writer refuses is lost, and the answers go on.
ghost use Rattle.std.specs.Prelude.{◌≡◌, [], ◌∷◌, map};
ghost use Rattle.replay_io.specs.Line.{fresh, put_byte, put_all};
ghost use Rattle.replay_io.specs.Line.{decimal_of, numbers_of, signed_text, none_text, line_feed, closing};

use crate::input::Found;
use crate::number::Number;
use std::io::{Stdout, Write};
use std::marker::Model;

// Bytes of the buffer.
pub const SIZE: usize = 65_536;

// The buffer, how many of its bytes are taken, and the writer that it goes to. A contract sees the first two. Any count
// is answered: one past the bytes is that of a full buffer. It is an array with a count and no `Vec`: the clauses `put`
// name what stands in a full buffer once it is written.
#[derive(Drop)]
pub struct Buffer<W> {
    pub bytes: [u8; SIZE],
    pub taken: usize,
    pub to: W,
}

impl<W> Model for Buffer<W> {
    ghost use Rattle.replay_io.specs.Line.{Gathered, gathered};

    ghost Value = { Gathered };

    ghost view = { λ b. gathered b.bytes b.taken };
}

// The buffer of a program's answers.
pub type Text = Buffer<Stdout>;

impl<W: Write> Buffer<W> {
    // Makes a buffer that goes to a writer. Nothing is taken yet.
    #[tactic(auto, unfolding(crate::specs::Line::fresh))]
    pub fn new(to: W) -> Self
        ensures empty { result ≡ fresh }
    {
        Buffer {
            bytes: [0; SIZE],
            taken: 0,
            to,
        }
    }

    // Puts a byte, once a full buffer is written.
    #[tactic(auto, using(crate::proofs::Puts::put_full, crate::proofs::Puts::put_room))]
    fn put(&mut self, byte: u8)
        ensures put { self.new ≡ put_byte self.old byte }
    {
        if self.taken >= SIZE {
            let _ = self.to.write_all(&self.bytes);
            self.taken = 0;
        }
        self.bytes[self.taken] = byte;
        self.taken += 1;
    }

    // Puts bytes as they are.
    #[tactic(auto, using(crate::proofs::Puts::put_next), unfolding(crate::specs::Line::put_all))]
    fn literal(&mut self, bytes: &[u8])
        ensures put { self.new ≡ put_all self.old bytes.now }
    {
        for byte in bytes {
            self.put(*byte);
        }
    }

    // Puts a number in decimal. Most numbers of a line are small, so one digit goes in by itself: it needs no division.
    #[tactic(auto, using(crate::proofs::Decimals::digits_put))]
    fn decimal(&mut self, value: u64)
        ensures put { self.new ≡ put_all self.old (decimal_of value) }
    {
        if value < 10 {
            self.put(b'0' + value as u8);
            return;
        }
        let mut digits = [0u8; 20];
        let count = io::decimal(value, &mut digits);
        self.literal(&digits[..count]);
    }

    // Puts the op that a line begins with.
    pub fn op(&mut self, op: u8)
        ensures put { self.new ≡ put_all self.old (decimal_of op) }
    {
        self.decimal(u64::from(op));
    }

    // Puts a number after a space.
    #[tactic(auto, using(crate::proofs::Numbers::number_put))]
    pub fn number<N: Number>(&mut self, value: N)
        ensures put { self.new ≡ put_all self.old (numbers_of (N.value value ∷ [])) }
    {
        self.put(b' ');
        self.decimal(value.to_u64());
    }

    // Puts a number after a space, with a minus sign if it is below 0.
    #[tactic(auto, using(crate::proofs::Signs::signed_minus, crate::proofs::Signs::signed_plus))]
    pub fn signed(&mut self, value: i16)
        ensures put { self.new ≡ put_all self.old (signed_text value) }
    {
        if value < 0 {
            self.literal(b" -");
            self.decimal(u64::from(value.unsigned_abs()));
        } else {
            self.number(value.unsigned_abs());
        }
    }

    // Puts numbers, each after a space.
    #[tactic(auto, using(crate::proofs::Numbers::each_number))]
    pub fn numbers<N: Number>(&mut self, values: &[N])
        ensures put { self.new ≡ put_all self.old (numbers_of (map N.value values.now)) }
    {
        for value in values {
            self.number(*value);
        }
    }

    // Says that the case has no answer.
    pub fn none(&mut self)
        ensures put { self.new ≡ put_all self.old none_text }
    {
        self.literal(b" none");
    }

    // Ends a line.
    #[tactic(auto, unfolding(crate::specs::Line::put_all))]
    pub fn end(&mut self)
        ensures put { self.new ≡ put_all self.old line_feed }
    {
        self.put(b'\n');
    }

    // Says why the answers end before the input does, if they do, and writes what the buffer then has.
    pub fn finish(&mut self, found: Found)
        ensures put { self.new ≡ put_all self.old (closing found) }
    {
        self.close(found);
        self.flush();
    }

    // Puts the line that ends the answers, if there is one.
    #[tactic(auto, using(crate::proofs::Puts::put_nil))]
    fn close(&mut self, found: Found)
        ensures put { self.new ≡ put_all self.old (closing found) }
    {
        match found {
            Found::Long => self.literal(b"long\n"),
            Found::Short => self.literal(b"short\n"),
            Found::Case | Found::End => {}
        }
    }

    // Writes what is taken.
    fn flush(&mut self)
        ensures kept { self.new ≡ self.old }
    {
        let count = self.taken.min(SIZE);
        let _ = self.to.write_all(&self.bytes[..count]);
    }
}
