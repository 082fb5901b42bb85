//! Worked examples.
ghost use Rattle.work_stale.specs.Rows.{Rows};

/// Small histories for which the entry that makes the step stale was found by hand.
pub fn small_histories_compute()
    ensures { Rows }
{}
