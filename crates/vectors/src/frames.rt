// The front of a row about a whole frame: the refusal, and what the frame holds.
use ld2410::{Error, Frame};
use refusal::refusal_number;
use std::fmt;

// A whole frame that was read, or its refusal.
#[derive(Drop)]
pub struct Front(pub Result<Frame, Error>);

impl fmt::Display for Front {
    fn fmt<W: fmt::Write>(&self, f: &mut fmt::Formatter<W>) -> fmt::Result {
        let holds = match self.0 {
            Ok(Frame::Report(_)) => "report",
            Ok(Frame::Ack(_)) => "ack",
            Err(_) => "no frame",
        };
        write!(f, "refusal {}, {holds}", refusal_number(self.0))
    }
}
