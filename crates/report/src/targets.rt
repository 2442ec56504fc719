// The accessors of a report: its targets, and whether it came from engineering mode.
ghost use Rattle.std.specs.Prelude.{◌≡◌};
ghost use Rattle.target_state.specs.State.{present_of};
ghost use Rattle.report.specs.Report.{moving_target, stationary_target};

use super::{Report, Target};

impl Report {
    // Returns the moving target, if the state says that there is one. It and `stationary` read other fields, so one
    // function would be no plainer.
    pub fn moving(self) -> Option<Target>
        ensures given { result ≡ moving_target self }
    {
        self.state.moving().then_some(Target {
            distance_cm: self.moving_distance_cm,
            energy: self.moving_energy,
        })
    }

    // Returns the stationary target, if the state says that there is one.
    pub fn stationary(self) -> Option<Target>
        ensures given { result ≡ stationary_target self }
    {
        self.state.stationary().then_some(Target {
            distance_cm: self.stationary_distance_cm,
            energy: self.stationary_energy,
        })
    }

    // Tests whether any target is present.
    pub fn present(self) -> bool
        ensures told { result ≡ present_of self.state }
    {
        self.state.present()
    }

    // Tests whether the report came from engineering mode.
    pub fn is_engineering(self) -> bool
        ensures told { result ≡ self.has_engineering }
    {
        self.has_engineering
    }
}
