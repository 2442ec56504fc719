// The two gate counts at the front of an engineering block: reading them, if the block fits.
ghost use Rattle.std.specs.Prelude.{◌≡◌};
ghost use Rattle.engineering.specs.Gates.{gates_at};

use wire::{GATES, byte_at};

// The numbers of gates that a block reports: `max_moving_gate` and `max_stationary_gate`, each plus one.
#[derive(Clone, Copy)]
pub struct Gates {
    pub moving: u8,
    pub stationary: u8,
}

impl Gates {
    // Reads the counts of a block that fits (check R8): both are present and in range, and all energies present.
    // Document 01 requires `let .. else` of the fields of a report.
    #[tactic(auto, unfolding(crate::specs::Gates::gates_fit, wire::specs::Number::number_at))]
    pub(crate) fn read(block: &[u8]) -> Option<Gates>
        ensures read { result ≡ gates_at block.now }
    {
        let Some(max_moving_gate) = byte_at(block, 0) else {
            return None;
        };
        let Some(max_stationary_gate) = byte_at(block, 1) else {
            return None;
        };
        let moving_gates = max_moving_gate as usize + 1;
        let stationary_gates = max_stationary_gate as usize + 1;
        if moving_gates > GATES {
            return None;
        }
        if stationary_gates > GATES {
            return None;
        }
        // If the last energy is present, all are.
        let Some(_) = byte_at(block, 1 + moving_gates + stationary_gates) else {
            return None;
        };
        Some(Gates {
            moving: max_moving_gate + 1,
            stationary: max_stationary_gate + 1,
        })
    }
}
