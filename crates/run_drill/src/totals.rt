//! The totals of the ends of a run's updates.
ghost use Rattle.std.specs.Prelude.{◌≡◌, ◌+◌, ◌*◌, ◌<◌, ◌≤◌, ◌^◌, length, map};
ghost use Rattle.chase_update.specs.Results.{finish_of};
ghost use Rattle.run_drill.specs.SummaryMeanings.{IsWithin, totals_of};
ghost use Rattle.run_drill.specs.Totals.{nothing, totals, with_finish};

use chase_update::{Finish, Outcome};

/// How many updates ended in each way, and how many steps they made and nulls they drew.
#[derive(Clone, Copy, Debug)]
pub(crate) struct Totals {
    pub done: u64,
    pub spent: u64,
    pub refused: u64,
    pub steps: u128,
    pub nulls: u128,
}

// The totals of no updates.
fn nothing() -> Totals
    ensures { totals_of result ≡ nothing }
{
    Totals {
        done: 0,
        spent: 0,
        refused: 0,
        steps: 0,
        nulls: 0,
    }
}

// The totals with one more update that ended so, after `before` others.
fn with_finish(totals: Totals, finish: Finish, before: u64) -> Totals
    requires within { IsWithin before totals }
    requires few { before < 2 ^ 63 }
    ensures totals { totals_of result ≡ with_finish (totals_of totals) (finish_of finish) }
    ensures within { IsWithin (before + 1) result }
{
    let steps = totals.steps + u128::from(finish.steps);
    let nulls = totals.nulls + u128::from(finish.nulls);
    let Totals {
        done,
        spent,
        refused,
        ..
    } = totals;
    match finish.outcome {
        Outcome::Done => Totals {
            done: done + 1,
            spent,
            refused,
            steps,
            nulls,
        },
        Outcome::Spent => Totals {
            done,
            spent: spent + 1,
            refused,
            steps,
            nulls,
        },
        Outcome::Refused { .. } => Totals {
            done,
            spent,
            refused: refused + 1,
            steps,
            nulls,
        },
    }
}

/// The totals of updates that ended so.
pub(crate) fn totals_by(finishes: &[Finish]) -> Totals
    ensures { totals_of result ≡ totals (map finish_of finishes.now) }
{
    let mut totals = nothing();
    for (before, finish) in finishes.iter().enumerate() {
        totals = with_finish(totals, *finish, before as u64);
    }
    totals
}
