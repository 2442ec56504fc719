// The lines on standard output.
use ld2410::{Frame, MAX_FRAME};
use std::{fmt, io};

// Bytes in hexadecimal, a space before each.
#[derive(Clone, Copy)]
pub struct Hex<'a>(pub &'a [u8]);

impl fmt::Display for Hex<'_> {
    fn fmt<W: fmt::Write>(&self, f: &mut fmt::Formatter<W>) -> fmt::Result {
        for byte in self.0 {
            write!(f, " {byte:02x}")?;
        }
        Ok(())
    }
}

// Writes that a frame passed.
pub fn passed(rt: &impl Print, frame: Frame) -> io::Result<()> {
    match frame {
        Frame::Report(_) => println!(rt; "a report passes"),
        Frame::Ack(_) => println!(rt; "an acknowledgement passes"),
    }
}

// Writes how a frame ended the wait, and what the module is set to, if it says it; `buf` is the parser's buffer, which
// holds an acknowledgement's payload.
pub fn ended(rt: &impl Print, ok: bool, frame: Frame, buf: &[u8; MAX_FRAME]) -> io::Result<()> {
    println!(rt; "{}", if ok { "done" } else { "failed" })?;
    if let Frame::Ack(ack) = frame
        && let Ok(p) = ack.parameters(buf)
    {
        let moving = p.max_moving_gate;
        let stationary = p.max_stationary_gate;
        let seconds = p.no_one_secs;
        println!(rt; "farthest gates {moving} and {stationary}, {seconds} s")?;
    }
    Ok(())
}
