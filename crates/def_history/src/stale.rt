//! When a step that was computed at an earlier state of a history is still the update's step.
//!
//! A thread computes a step while the history goes on. The result is still the update's step as long as no later entry makes it
//! stale: an entry that added or took away writes of an update below it in a relation that one of its reads mentions, or that
//! restarted it. The definitions stand in `specs/`. Each function is a law: its contract is the statement, and its body is empty.
ghost use Rattle.std.specs.Prelude.{ℕ, List, ◌≤◌};
ghost use Rattle.def_chase.specs.Mappings.{Rule};
ghost use Rattle.def_steps.specs.Chase.{caused_chase};
ghost use Rattle.def_history.specs.Stale.{StaysLaw};
ghost use Rattle.def_history.specs.Touches.{TouchLaw};

/// A ready update's step stays the same over any number of entries that spare its attempt, if none of them makes the step stale.
pub fn steps_stay()
    ensures { (ms : List Rule) (budget : ℕ) → 1 ≤ budget → StaysLaw (caused_chase ms budget) }
{}

/// The relations that an event touches and the updates that it restarts are enough to show that it does not make a step stale.
pub fn touches_tell()
    ensures { (ms : List Rule) (budget : ℕ) → TouchLaw (caused_chase ms budget) }
{}
