// The rows about the state byte, request 3. A row has the state that a report is read in, its targets, and the frame
// that it is written as, in a buffer whose bytes were all EE before.
use crate::frames::Front;
use crate::sent::Written;
use ld2410::{Frame, Report, write_report};
use std::fmt;

// The place of the state byte in a report frame.
const STATE_AT: usize = 8;

// A report frame of `N` bytes, with another state byte.
#[derive(Drop)]
pub struct InState<const N: usize> {
    pub frame: [u8; N],
    pub state: u8,
}

impl<const N: usize> fmt::Display for InState<N> {
    fn fmt<W: fmt::Write>(&self, f: &mut fmt::Formatter<W>) -> fmt::Result {
        let mut bytes = self.frame;
        if let Some(byte) = bytes.get_mut(STATE_AT) {
            *byte = self.state;
        }
        let read = Frame::parse(&bytes);
        write!(f, "{}", Front(read))?;
        if let Ok(Frame::Report(report)) = read {
            write!(f, ", {}", Again(report))?;
        }
        Ok(())
    }
}

// A report that is written again: its state, whether each target is present, and whether any is.
#[derive(Drop)]
struct Again(Report);

impl fmt::Display for Again {
    fn fmt<W: fmt::Write>(&self, f: &mut fmt::Formatter<W>) -> fmt::Result {
        let report = self.0;
        let mut out = [0xEE; 46];
        let answer = write_report(&mut out, report);
        write!(
            f,
            "state {}, moving {}, stationary {}, present {}, {}",
            report.state.to_byte(),
            u8::from(report.moving().is_some()),
            u8::from(report.stationary().is_some()),
            u8::from(report.present()),
            Written { answer, out: &out }
        )
    }
}
