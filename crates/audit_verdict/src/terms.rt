//! The terms by which a trace is judged.
ghost use Rattle.std.specs.Prelude.{◌≡◌, ◌≤◌};

use audit_updates::Settings;
use base_limits::Budget;

/// The terms by which a history is judged: the budget of an attempt, the retries of an update, at most 4, and how dependences are
/// tested.
#[derive(Clone, Copy, Debug)]
pub struct Terms {
    pub budget: Budget,
    pub settings: Settings,
    ghost few: { settings.retries ≤ 4 },
}

impl Terms {
    /// Terms with this budget and these settings.
    pub fn new(budget: Budget, settings: Settings) -> Terms
        requires few { settings.retries ≤ 4 }
        ensures budget { result.budget ≡ budget }
        ensures settings { result.settings ≡ settings }
    {
        Terms { budget, settings }
    }
}
