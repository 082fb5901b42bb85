//! Tuples.

use crate::cursors::Cursor;
use crate::items::Item;
use ws_command::{Pattern, Replacement};
use ws_fault::Refusal;
use ws_written::{Fact, NewFact};

// A tuple.
impl Item for Fact {
    fn read(cursor: &mut Cursor<'_>) -> Result<Fact, Refusal> {
        let (relation, values) = cursor.tuple()?;
        Ok(Fact { relation, values })
    }
}

// A tuple in which new unknowns may stand.
impl Item for NewFact {
    fn read(cursor: &mut Cursor<'_>) -> Result<NewFact, Refusal> {
        let (relation, values) = cursor.tuple()?;
        Ok(NewFact { relation, values })
    }
}

// A tuple in which `_` may stand.
impl Item for Pattern {
    fn read(cursor: &mut Cursor<'_>) -> Result<Pattern, Refusal> {
        let (relation, values) = cursor.tuple()?;
        Ok(Pattern { relation, values })
    }
}

// A tuple in which `_` and new unknowns may stand.
impl Item for Replacement {
    fn read(cursor: &mut Cursor<'_>) -> Result<Replacement, Refusal> {
        let (relation, values) = cursor.tuple()?;
        Ok(Replacement { relation, values })
    }
}
