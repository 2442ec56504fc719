// The nine basic bytes of a report: reading them.
ghost use Rattle.std.specs.Prelude.{◌≡◌};
ghost use Rattle.report.specs.Basic.{basic_at};

use wire::{byte_at, le16};

// The nine basic bytes of a report, as they are sent: state; moving distance and energy; stationary distance and
// energy; detection distance.
#[derive(Clone, Copy)]
pub struct Basic {
    pub state: u8,
    pub moving_distance_cm: u16,
    pub moving_energy: u8,
    pub stationary_distance_cm: u16,
    pub stationary_energy: u8,
    pub detection_distance_cm: u16,
}

impl Basic {
    // Reads the nine basic bytes at the front of `body`.
    // Document 01 requires `let .. else` of the fields of a report.
    #[tactic(auto, unfolding(wire::specs::Number::number_at))]
    pub(crate) fn read(body: &[u8]) -> Option<Basic>
        ensures read { result ≡ basic_at body.now }
    {
        let Some(state) = byte_at(body, 0) else {
            return None;
        };
        let Some(moving_distance_cm) = le16(body, 1) else {
            return None;
        };
        let Some(moving_energy) = byte_at(body, 3) else {
            return None;
        };
        let Some(stationary_distance_cm) = le16(body, 4) else {
            return None;
        };
        let Some(stationary_energy) = byte_at(body, 6) else {
            return None;
        };
        let Some(detection_distance_cm) = le16(body, 7) else {
            return None;
        };
        Some(Basic {
            state,
            moving_distance_cm,
            moving_energy,
            stationary_distance_cm,
            stationary_energy,
            detection_distance_cm,
        })
    }
}
