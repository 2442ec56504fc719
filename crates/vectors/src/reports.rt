// The rows about reports: a whole frame that is read, or a report's data. A row has the refusal and the report.
use crate::frames::Front;
use crate::hex::Hex;
use ld2410::{Engineering, Frame, Report};
use std::fmt;

// A whole frame that holds a report.
#[derive(Drop)]
pub struct ReportFrame<'a>(pub &'a [u8]);

impl fmt::Display for ReportFrame<'_> {
    fn fmt<W: fmt::Write>(&self, f: &mut fmt::Formatter<W>) -> fmt::Result {
        let read = Frame::parse(self.0);
        write!(f, "{}", Front(read))?;
        if let Ok(Frame::Report(report)) = read {
            write!(f, ", {}", Fields(report))?;
        }
        Ok(())
    }
}

// A report's data.
#[derive(Drop)]
pub struct ReportData<'a>(pub &'a [u8]);

impl fmt::Display for ReportData<'_> {
    fn fmt<W: fmt::Write>(&self, f: &mut fmt::Formatter<W>) -> fmt::Result {
        match Report::parse(self.0) {
            Ok(report) => write!(f, "refusal 0, {}", Fields(report)),
            Err(e) => write!(
                f,
                "refusal {}, state 0, moving 0 0, stationary 0 0, detection 0",
                e.number()
            ),
        }
    }
}

// A report, with its engineering block if it has one.
#[derive(Drop)]
struct Fields(Report);

impl fmt::Display for Fields {
    fn fmt<W: fmt::Write>(&self, f: &mut fmt::Formatter<W>) -> fmt::Result {
        let report = self.0;
        write!(
            f,
            "state {}, moving {} {}, stationary {} {}, detection {}",
            report.state.to_byte(),
            report.moving_distance_cm,
            report.moving_energy,
            report.stationary_distance_cm,
            report.stationary_energy,
            report.detection_distance_cm
        )?;
        if report.is_engineering() {
            write!(f, ", {}", Block(report.engineering))?;
        }
        Ok(())
    }
}

// An engineering block.
#[derive(Drop)]
struct Block(Engineering);

impl fmt::Display for Block {
    fn fmt<W: fmt::Write>(&self, f: &mut fmt::Formatter<W>) -> fmt::Result {
        let block = self.0;
        write!(
            f,
            "moving gates {}:{}, stationary gates {}:{}, reserved {}:{}",
            block.moving_gates,
            Hex(&block.moving_energy),
            block.stationary_gates,
            Hex(&block.stationary_energy),
            block.extra_len,
            Hex(&block.extra)
        )
    }
}
