//! How an attempt ends, and what it wants.
ghost use Rattle.std.specs.Prelude.{◌≡◌};
ghost use Rattle.chase_update.specs.Wishes.{end_in};
ghost use Rattle.chase_update.specs.PointMeanings.{outcome_of, end_of};

use base_types::Null;
use chase_query::Query;
use chase_question::Question;

/// How an attempt ended: all mappings in force hold; its budget of steps has run out; or the update names the null of this update
/// and place, which is nowhere in the repository.
#[derive(Clone, Copy, Debug, PartialEq, Eq)]
pub enum Outcome {
    Done,
    Spent,
    Refused { update: u32, place: u32 },
}

/// What an attempt wants next: the answer to a query; the answer to a question; nothing, since it has ended; or a call that
/// begins its next step.
#[derive(Clone, Copy)]
pub enum Want<'a> {
    Read(&'a Query),
    Choice(&'a Question),
    Ended(Outcome),
    NextStep,
}

/// How an attempt ended, with the whole name of the null that was refused.
#[derive(Clone, Copy, Debug)]
pub(crate) enum End {
    Done,
    Spent,
    Refused(Null),
}

impl End {
    /// The end as people see it: without the attempt of the null.
    pub(crate) fn outer(self) -> Outcome
        ensures outer { end_of result ≡ end_in (outcome_of self) }
    {
        match self {
            End::Done => Outcome::Done,
            End::Spent => Outcome::Spent,
            End::Refused(null) => Outcome::Refused {
                update: null.update,
                place: null.place,
            },
        }
    }
}
