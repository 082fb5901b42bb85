//! The counts of an attempt after a step.
ghost use Rattle.std.specs.Prelude.{◌≡◌, ◌+◌, ◌≤◌, suc, if◌then◌else◌, None};
ghost use Rattle.chase_update.specs.Courses.{unless_spent};
ghost use Rattle.chase_update.specs.PointMeanings.{phase_at, row_at};

use crate::ends::End;
use crate::points::Point;
use base_limits::Budget;

/// The count of answers after a step that takes one or none.
pub(crate) fn taken_after(taken: u32, answers: bool) -> u32
    requires { taken ≤ 1000001 }
    ensures value { result ≡ (if answers then suc taken else taken) }
    ensures most { result ≤ taken + 1 }
{
    if answers { taken + 1 } else { taken }
}

/// Keeps the point, but the attempt is spent if all steps of the budget are made and it has not ended there.
pub(crate) fn spend(point: &mut Point, steps: u32, budget: Budget)
    requires { row_at point.old ≡ None }
    ensures phase { phase_at point.new ≡ unless_spent budget steps (phase_at point.old) }
    ensures rests { row_at point.new ≡ None }
{
    if budget.allows(steps) {
        return;
    }
    if !point.has_ended() {
        *point = Point::Ended(End::Spent);
    }
}
