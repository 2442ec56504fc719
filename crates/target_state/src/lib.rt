// The target state of a report: which targets the module sees, or the state of its background calibration, and the byte
// that says so.

#![tactic(auto)]

ghost use Rattle.std.specs.Prelude.{◌≡◌, ◌≤◌};
ghost use Rattle.target_state.specs.State.{state_of, byte_of, state_max, moving_of, stationary_of, present_of};
ghost use Rattle.target_state.specs.Claims.{Calibration};

// The targets that the module sees, or the state of its background calibration: the state byte of a report.
#[derive(Clone, Copy, PartialEq, Eq)]
pub enum TargetState {
    // No target.
    None,
    // A moving target only.
    Moving,
    // A stationary target only.
    Stationary,
    // A moving and a stationary target.
    Both,
    // Background calibration running.
    CalibrationRunning,
    // Background calibration done.
    CalibrationDone,
    // Background calibration failed.
    CalibrationFailed,
}

impl TargetState {
    // Decodes the state byte: 4, 5 and 6 are states of their own; of any other byte the two lowest bits count. A byte
    // up to 6 is what `to_byte` gives for its state.
    #[tactic(auto, unfolding(crate::specs::State::state_of))]
    pub fn from_byte(byte: u8) -> Self
        ensures decoded { result ≡ state_of byte }
        ensures kept { byte ≤ state_max → byte_of result ≡ byte }
        ensures calibration { Calibration byte result }
    {
        match byte {
            4 => TargetState::CalibrationRunning,
            5 => TargetState::CalibrationDone,
            6 => TargetState::CalibrationFailed,
            _ => match byte % 4 {
                0 => TargetState::None,
                1 => TargetState::Moving,
                2 => TargetState::Stationary,
                _ => TargetState::Both,
            },
        }
    }

    // Returns the byte that the module sends for this state, which is decoded as the state.
    #[tactic(auto, unfolding(crate::specs::State::state_of))]
    pub fn to_byte(self) -> u8
        ensures encoded { result ≡ byte_of self }
        ensures kept { (result ≤ state_max) × (state_of result ≡ self) }
    {
        match self {
            TargetState::None => 0,
            TargetState::Moving => 1,
            TargetState::Stationary => 2,
            TargetState::Both => 3,
            TargetState::CalibrationRunning => 4,
            TargetState::CalibrationDone => 5,
            TargetState::CalibrationFailed => 6,
        }
    }

    // Tests whether a moving target is present.
    pub fn moving(self) -> bool
        ensures told { result ≡ moving_of self }
    {
        matches!(self, TargetState::Moving | TargetState::Both)
    }

    // Tests whether a stationary target is present.
    pub fn stationary(self) -> bool
        ensures told { result ≡ stationary_of self }
    {
        matches!(self, TargetState::Stationary | TargetState::Both)
    }

    // Tests whether any target is present.
    pub fn present(self) -> bool
        ensures told { result ≡ present_of self }
    {
        self.moving() || self.stationary()
    }
}
