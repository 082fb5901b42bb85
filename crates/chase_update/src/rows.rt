//! The state of a step in hand.
ghost use Rattle.std.specs.Prelude.{◌≡◌, IfOk};
ghost use Rattle.chase_update.specs.RowMeanings.{naming_of, renaming_of, row_of};

use crate::found::ResolvedNullList;
use base_types::{List, Memory, Null, TryCopy, TupleList};
use chase_repair::boxed;
use std::alloc::Global;

/// The named nulls of an operation, in order of first position.
pub(crate) type NullList = List<Null>;

/// The named nulls of an operation while they are looked up: the nulls found, the one that is asked for, and all of them in
/// order; the ones still to come are from place `next` on.
#[derive(Debug, Drop)]
pub(crate) struct Naming {
    pub(crate) found: ResolvedNullList,
    pub(crate) name: Null,
    pub(crate) names: NullList,
    pub(crate) next: usize,
}

/// The named null that is looked up, and the null that it replaces in these tuples.
#[derive(Debug, Drop)]
pub(crate) struct Renaming {
    pub(crate) name: Null,
    pub(crate) null: Null,
    pub(crate) tuples: TupleList,
}

/// What a step in hand asks for: a named null of an operation; whether the operation's tuple is there; the null to be replaced;
/// the null that replaces another one in tuples; whether a mapping is in force; or its first violation. Large variants that are
/// rare are held by pointers.
#[derive(Debug, Drop)]
pub(crate) enum Row {
    Naming(Box<Naming>),
    Writing,
    Replacing(Null),
    Renaming(Box<Renaming>),
    Forcing(u16),
    Violating(u16),
}

impl TryCopy for Naming {
    ghost use Rattle.chase_update.specs.Rows.{Row as RowMeant};
    ghost use Rattle.chase_update.specs.RowMeanings.{naming_of};

    ghost Meaning = { RowMeant };

    ghost meaning = { naming_of };

    fn copy(&self, alloc: Global) -> Result<Naming, Memory>
        ensures same { IfOk result (λ copy. naming_of copy ≡ naming_of self.now) }
    {
        Ok(Naming {
            found: self.found.copy(alloc)?,
            name: self.name,
            names: List::from_vec(Vec::from_slice(alloc, self.names.as_slice())?),
            next: self.next,
        })
    }
}

impl TryCopy for Renaming {
    ghost use Rattle.chase_update.specs.Rows.{Row as RowMeant};
    ghost use Rattle.chase_update.specs.RowMeanings.{renaming_of};

    ghost Meaning = { RowMeant };

    ghost meaning = { renaming_of };

    fn copy(&self, alloc: Global) -> Result<Renaming, Memory>
        ensures same { IfOk result (λ copy. renaming_of copy ≡ renaming_of self.now) }
    {
        Ok(Renaming {
            name: self.name,
            null: self.null,
            tuples: self.tuples.copy(alloc)?,
        })
    }
}

impl TryCopy for Row {
    ghost use Rattle.def_chase.specs.Queries.{Query as QueryMeant};
    ghost use Rattle.chase_update.specs.Rows.{Row as RowMeant};
    ghost use Rattle.chase_update.specs.RowMeanings.{row_of};

    ghost Meaning = { QueryMeant → RowMeant };

    ghost meaning = { row_of };

    fn copy(&self, alloc: Global) -> Result<Row, Memory>
        ensures same { IfOk result (λ copy. row_of copy ≡ row_of self.now) }
    {
        match self {
            Row::Naming(naming) => Ok(Row::Naming(boxed(alloc, naming.copy(alloc)?)?)),
            Row::Writing => Ok(Row::Writing),
            Row::Replacing(name) => Ok(Row::Replacing(*name)),
            Row::Renaming(renaming) => Ok(Row::Renaming(boxed(alloc, renaming.copy(alloc)?)?)),
            Row::Forcing(mapping) => Ok(Row::Forcing(*mapping)),
            Row::Violating(mapping) => Ok(Row::Violating(*mapping)),
        }
    }
}
