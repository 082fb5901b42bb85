//! The turns of a step of an operation or of a look.
ghost use Rattle.std.specs.Prelude.{[]};
ghost use Rattle.base_types.specs.Contents.{changes_of};
ghost use Rattle.base_types.specs.Meanings.{null_of};
ghost use Rattle.def_steps.specs.Attempts.{Start, Look, Ended, Done, Refused};
ghost use Rattle.def_steps.specs.Steps.{makes};
ghost use Rattle.chase_update.specs.TurnMeanings.{AlwaysComesTo, IsTurnOf};

use crate::ends::End;
use crate::moves::Move;
use crate::points::Point;
use crate::readings::Reading;
use base_types::{Null, WriteList};
use std::alloc::Global;

/// The turn that a step of an operation or of a look takes after the answers so far: it asks a query, or it ends with this move.
#[derive(Debug, Drop)]
pub(crate) enum Turn {
    Asks(Reading),
    Moves(Move),
}

impl Turn {
    /// The step of an operation makes the writes, and a look comes next.
    pub(crate) fn looks(writes: WriteList) -> Turn
        ensures tree { AlwaysComesTo (makes (changes_of writes) Look) result }
        ensures turn { IsTurnOf Start result }
    {
        Turn::Moves(Move {
            writes,
            point: Point::Look,
            drawn: 0,
        })
    }

    /// The step of an operation finds the null nowhere, and the attempt is refused.
    pub(crate) fn refuses(alloc: Global, name: Null) -> Turn
        ensures tree { AlwaysComesTo (makes [] (Ended (Refused (null_of name)))) result }
        ensures turn { IsTurnOf Start result }
    {
        Turn::Moves(Move {
            writes: WriteList::new(alloc),
            point: Point::Ended(End::Refused(name)),
            drawn: 0,
        })
    }

    /// The look finds no violation, and the attempt is done.
    pub(crate) fn ends(alloc: Global) -> Turn
        ensures tree { AlwaysComesTo (makes [] (Ended Done)) result }
        ensures turn { IsTurnOf Look result }
    {
        Turn::Moves(Move {
            writes: WriteList::new(alloc),
            point: Point::Ended(End::Done),
            drawn: 0,
        })
    }
}
