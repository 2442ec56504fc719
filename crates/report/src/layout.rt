// The layout of a report's data: a type, a fixed head byte, the body, a trailer. It is read by the checks R1 to R5,
// together with the nine basic bytes in front of the body.
ghost use Rattle.std.specs.Prelude.{◌≡◌};
ghost use Rattle.report.specs.LayoutCheck.{checked_layout};

use crate::basic::Basic;
use refusal::Check;
use wire::{byte_at, bytes_eq};

// The fixed head byte of report data, after the data type.
pub const REPORT_HEAD: u8 = 0xAA;

// The two bytes at the end of report data.
pub const REPORT_TRAILER: [u8; 2] = [0x55, 0x00];

// The type of report data, a byte until R6 is checked, and their basic bytes.
#[derive(Clone, Copy)]
pub struct Layout {
    pub data_type: u8,
    pub basic: Basic,
}

impl Layout {
    // Reads the data of a report frame, all between its length and its tail, by the checks R1 to R5 in this order.
    // Document 01 requires `let .. else` of the fields of a report.
    #[tactic(auto, unfolding(crate::specs::LayoutCheck::checked_layout, wire::specs::Number::number_at))]
    pub(crate) fn checked(data: &[u8]) -> Result<Layout, Check>
        ensures checked { result ≡ checked_layout «data».now }
    {
        let Some(data_type) = byte_at(data, 0) else {
            return Err(Check::R1);
        };
        let Some(head) = byte_at(data, 1) else {
            return Err(Check::R1);
        };
        if head != REPORT_HEAD {
            return Err(Check::R2);
        }
        // If the fourth byte is present, two follow the head byte.
        let Some(_) = byte_at(data, 3) else {
            return Err(Check::R3);
        };
        let end = data.len() - 2;
        if !bytes_eq(&data[end..], &REPORT_TRAILER) {
            return Err(Check::R4);
        }
        let Some(basic) = Basic::read(&data[2..end]) else {
            return Err(Check::R5);
        };
        Ok(Layout { data_type, basic })
    }
}
