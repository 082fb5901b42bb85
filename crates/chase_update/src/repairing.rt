//! What the repair in hand wants, as its attempt wants it.
ghost use Rattle.std.specs.Prelude.{◌≡◌, ◌↔◌, true, false, None, IsTrue};
ghost use Rattle.def_steps.specs.Attempts.{Look};
ghost use Rattle.chase_repair.specs.Repairs.{is_asking, phase_of};
ghost use Rattle.chase_repair.specs.Stands.{wanted, WantsStep};
ghost use Rattle.chase_update.specs.Wishes.{wish_of_repair, WishesStep, query_wished};
ghost use Rattle.chase_update.specs.PointMeanings.{want_of};

use crate::ends::Want;
use chase_repair::{Repair, RepairWant};

/// What a repair wants, as an attempt wants it.
pub(crate) fn want_of_repair(repair: &Repair) -> Want<'_>
    ensures want { want_of result ≡ wish_of_repair repair.now }
    ensures rests { query_wished (want_of result) ≡ None → is_asking repair.now ≡ false }
{
    match repair.wants() {
        RepairWant::Query(query) => Want::Read(query),
        RepairWant::Question(question) => Want::Choice(question),
        RepairWant::NextStep => Want::NextStep,
        RepairWant::Finished => Want::NextStep,
    }
}

/// Whether the repair's next step is one of its own, and not a look.
pub(crate) fn generates(repair: &Repair) -> bool
    requires { wish_of_repair repair.now ≡ WishesStep }
    ensures generates { result ≡ true → wanted repair.now ≡ WantsStep }
    ensures looks { result ≡ false → phase_of repair.now ≡ Look }
{
    matches!(repair.wants(), RepairWant::NextStep)
}

/// Whether the repair has ended, so that a look comes next.
pub(crate) fn is_repaired(repair: &Repair) -> bool
    ensures repaired { IsTrue result ↔ (phase_of repair.now ≡ Look) }
{
    matches!(repair.wants(), RepairWant::Finished)
}
