//! The points of an attempt.
ghost use Rattle.std.specs.Prelude.{◌≡◌, is_some, IfOk};
ghost use Rattle.def_steps.specs.Attempts.{outcome_in};
ghost use Rattle.chase_update.specs.PointMeanings.{phase_at, point_of};

use crate::ends::End;
use crate::readings::Reading;
use base_types::{Memory, TryCopy};
use chase_repair::Repair;
use std::alloc::Global;

/// The point of an attempt: at the start of its operation, at a look, in the repair of a violation, at its end, or within a step
/// of its operation or of a look.
#[derive(Debug, Drop)]
pub(crate) enum Point {
    Start,
    Look,
    Repair(Repair),
    Ended(End),
    Reading(Reading),
}

impl Point {
    /// Whether the attempt has ended there.
    pub(crate) fn has_ended(&self) -> bool
        ensures ended { result ≡ is_some (outcome_in (phase_at self.now)) }
    {
        matches!(self, Point::Ended(_))
    }
}

impl TryCopy for Point {
    ghost use Rattle.std.specs.Prelude.{Option};
    ghost use Rattle.def_steps.specs.Attempts.{Phase};
    ghost use Rattle.chase_update.specs.Rows.{Row};
    ghost use Rattle.chase_update.specs.PointMeanings.{point_of};

    ghost Meaning = { Phase × Option Row };

    ghost meaning = { point_of };

    fn copy(&self, alloc: Global) -> Result<Point, Memory>
        ensures same { IfOk result (λ copy. point_of copy ≡ point_of self.now) }
    {
        match self {
            Point::Start => Ok(Point::Start),
            Point::Look => Ok(Point::Look),
            Point::Repair(repair) => Ok(Point::Repair(repair.copy(alloc)?)),
            Point::Ended(end) => Ok(Point::Ended(*end)),
            Point::Reading(reading) => Ok(Point::Reading(reading.copy(alloc)?)),
        }
    }
}
