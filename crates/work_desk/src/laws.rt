//! What follows for a desk's record at the end of its lock.
ghost use Rattle.std.specs.Prelude.{ℕ, List};
ghost use Rattle.def_chase.specs.Mappings.{Rule};
ghost use Rattle.def_steps.specs.Chase.{caused_chase};
ghost use Rattle.def_record.specs.Items.{ItemOf};
ghost use Rattle.work_desk.specs.ClosedDesks.{ClosingLaw};

/// If every seat is at rest, the record of the value that the lock gives back is at rest. It is stated for the chase and a value
/// that is a number, and proved for all.
pub fn closed_desks_are_at_rest()
    ensures { (ms : List Rule) (budget : ℕ) →
        ClosingLaw (caused_chase ms budget) ℕ (ItemOf (caused_chase ms budget)) }
{}
