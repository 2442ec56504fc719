// Reports of the LD2410: reading them from a report frame's data, and their targets.

#![tactic(auto)]

mod basic;
mod layout;
mod targets;

ghost use Rattle.std.specs.Prelude.{◌≡◌};
ghost use Rattle.refusal.specs.Check.{Causes};
ghost use Rattle.report.specs.Report.{report_with, no_report};
ghost use Rattle.report.specs.LayoutCheck.{report_checks};
ghost use Rattle.report.specs.Check.{checked_report, completed_report, parsed_report, returned_report};
ghost use Rattle.report.specs.Claims.{Calibrated};

use basic::Basic;
use engineering::{Engineering, no_engineering, read_block};
use layout::Layout;
pub use layout::{REPORT_HEAD, REPORT_TRAILER};
use refusal::{Check, Error};
use target_state::TargetState;

// Where the bytes after the basic ones start in the data of a report frame.
const BLOCK_AT: usize = 11;

// The data type of an engineering report.
const DATA_TYPE_ENGINEERING: u8 = 0x01;

// The data type of a basic report.
const DATA_TYPE_BASIC: u8 = 0x02;

// One detected target: its distance and energy.
#[derive(Clone, Copy)]
pub struct Target {
    pub distance_cm: u16,
    pub energy: u8,
}

// One periodic report from the module. `engineering` is all 0 if `has_engineering` is off.
//
// Keeps the flag beside the block, in place of an `Option<Engineering>`: `write_report` refuses with 6 a report whose
// flag is off beside a block that is not 0 (`causes`, edit report_writer/flag_off_not_tested).
#[derive(Clone, Copy)]
pub struct Report {
    pub moving_distance_cm: u16,
    pub stationary_distance_cm: u16,
    pub detection_distance_cm: u16,
    pub state: TargetState,
    pub moving_energy: u8,
    pub stationary_energy: u8,
    pub has_engineering: bool,
    pub engineering: Engineering,
}

impl Report {
    // Makes the report of the basic fields, with an engineering block or with one that is all 0.
    fn made(basic: Basic, has_engineering: bool, engineering: Engineering) -> Self
        ensures made { result ≡ report_with basic has_engineering engineering }
    {
        Report {
            state: TargetState::from_byte(basic.state),
            moving_distance_cm: basic.moving_distance_cm,
            moving_energy: basic.moving_energy,
            stationary_distance_cm: basic.stationary_distance_cm,
            stationary_energy: basic.stationary_energy,
            detection_distance_cm: basic.detection_distance_cm,
            has_engineering,
            engineering,
        }
    }

    // Completes the report by its type and the bytes after the basic ones: checks R6 to R8.
    #[tactic(auto, unfolding(crate::specs::Check::completed_report))]
    fn completed(basic: Basic, data_type: u8, block: &[u8]) -> Result<Report, Check>
        ensures checked { result ≡ completed_report basic data_type block.now }
    {
        match data_type {
            DATA_TYPE_ENGINEERING => Report::with_block(basic, block),
            DATA_TYPE_BASIC => Report::without_block(basic, block),
            _ => Err(Check::R6),
        }
    }

    // Completes an engineering report: check R8.
    #[tactic(auto, unfolding(crate::specs::Check::completed_report))]
    fn with_block(basic: Basic, block: &[u8]) -> Result<Report, Check>
        ensures checked { result ≡ completed_report basic 0x01 block.now }
    {
        let engineering = read_block(block)?;
        Ok(Report::made(basic, true, engineering))
    }

    // Completes a basic report: check R7.
    #[tactic(auto, unfolding(crate::specs::Check::completed_report))]
    fn without_block(basic: Basic, block: &[u8]) -> Result<Report, Check>
        ensures checked { result ≡ completed_report basic 0x02 block.now }
    {
        if !block.is_empty() {
            return Err(Check::R7);
        }
        Ok(Report::made(basic, false, no_engineering()))
    }

    // Reads the data of a report frame. Refuses with 2 if R6 is the first check that fails, with 1 if another is.
    pub fn parse(data: &[u8]) -> Result<Report, Error>
        ensures parsed { result ≡ parsed_report «data».now }
        ensures causes { Causes no_report report_checks «data».now (returned_report result) }
        ensures calibration { Calibrated «data».now (returned_report result).value }
    {
        Ok(checked_report(data)?)
    }
}

// Reads the data of a report frame, all between its length and its tail, by the checks R1 to R8 in this order.
#[tactic(auto, unfolding(crate::specs::LayoutCheck::checked_layout))]
pub fn checked_report(data: &[u8]) -> Result<Report, Check>
    ensures checked { result ≡ checked_report «data».now }
{
    let layout = Layout::checked(data)?;
    let end = data.len() - 2;
    Report::completed(layout.basic, layout.data_type, &data[BLOCK_AT..end])
}
