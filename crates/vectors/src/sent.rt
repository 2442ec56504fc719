// The rows about commands. A row has the number of bytes written, and the buffer that the encoder left, whose bytes
// were all EE before.
use crate::hex::Hex;
use ld2410::{Command, Error};
use std::fmt;

// A command, encoded into a buffer that takes the longest frame.
#[derive(Drop)]
pub struct Sent(pub Command);

impl fmt::Display for Sent {
    fn fmt<W: fmt::Write>(&self, f: &mut fmt::Formatter<W>) -> fmt::Result {
        let mut out = [0xEE; 30];
        let answer = self.0.encode(&mut out);
        write!(f, "{}", Written { answer, out: &out })
    }
}

// A writer's answer, and the buffer that it left.
#[derive(Drop)]
pub struct Written<'a> {
    pub answer: Result<usize, Error>,
    pub out: &'a [u8],
}

impl fmt::Display for Written<'_> {
    fn fmt<W: fmt::Write>(&self, f: &mut fmt::Formatter<W>) -> fmt::Result {
        let out = Hex(self.out);
        match self.answer {
            Ok(n) => write!(f, "sent {n}:{out}"),
            Err(e) => write!(f, "refused {}:{out}", e.number()),
        }
    }
}
