//! The update of an attempt, and its forward repair in hand.
ghost use Rattle.std.specs.Prelude.{◌≡◌, None, IfOk};
ghost use Rattle.std.specs.Option.{option_map};
ghost use Rattle.def_chase.specs.Updates.{Unify};
ghost use Rattle.base_types.specs.Meanings.{fact_of, operation_of};
ghost use Rattle.base_types.specs.Maps.{images_of, moved_by};
ghost use Rattle.chase_repair.specs.Bound.{bound_in, unifier_in};
ghost use Rattle.chase_repair.specs.BoundMeanings.{bound_of};
ghost use Rattle.chase_update.specs.Wishes.{wish, Fits};
ghost use Rattle.chase_update.specs.Starting.{is_start};

use crate::attempts::Attempt;
use crate::points::Point;
use base_types::{Memory, Operation, Sub, Tuple};
use chase_repair::Bound;
use std::alloc::Global;

impl Attempt {
    /// The number of its update.
    pub fn number(&self) -> u32
        ensures number { result ≡ self.now.attempt.number }
    {
        self.parts.number
    }

    /// The operation of its update.
    pub fn operation(&self) -> &Operation
        ensures operation { operation_of result.now ≡ self.now.attempt.operation }
    {
        &self.parts.operation
    }

    /// Whether its next step is its first, which is the step of the operation.
    pub fn is_at_start(&self) -> bool
        requires between { self.now.reading ≡ None }
        ensures start { result ≡ is_start self.now.attempt.phase }
    {
        matches!(&self.parts.point, Point::Start)
    }

    /// The mapping of the forward repair in hand, and the values of its variables; None exactly if none is in hand.
    pub fn bound(&self) -> Option<Bound<'_>>
        ensures bound { option_map bound_of result ≡ bound_in self.now.attempt.phase }
    {
        match &self.parts.point {
            Point::Repair(repair) => repair.bound(),
            Point::Start => None,
            Point::Look => None,
            Point::Ended(_) => None,
            Point::Reading(_) => None,
        }
    }

    /// The unifier of the generated tuple in question and the candidate with this outer form. The form must fit the question.
    pub fn unifier_with(&self, alloc: Global, form: &Tuple) -> Result<Sub, Memory>
        requires { Fits (wish self.now) (Unify (fact_of form.now)) }
        ensures unifier { IfOk result
            (λ sub. moved_by (images_of sub) ≡
            unifier_in self.now.attempt.phase (fact_of form.now)) }
    {
        match &self.parts.point {
            Point::Repair(repair) => repair.unifier_with(alloc, form),
            _ => unreachable!(),
        }
    }
}
