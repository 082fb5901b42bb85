//! A step in hand, with the query that it asks.
ghost use Rattle.std.specs.Prelude.{◌≡◌, Some, IfOk};
ghost use Rattle.chase_query.specs.Meanings.{query_of};
ghost use Rattle.chase_update.specs.Rows.{asked};
ghost use Rattle.chase_update.specs.RowMeanings.{row_of};

use crate::rows::Row;
use base_types::{Memory, TryCopy};
use chase_query::Query;
use std::alloc::Global;

/// The state of a step in hand, with the query that it asks.
#[derive(Debug, Drop)]
pub(crate) struct Reading {
    pub(crate) query: Query,
    pub(crate) row: Row,
    ghost asks: { asked (row_of row (query_of query)) ≡ Some (query_of query) },
}

impl TryCopy for Reading {
    ghost use Rattle.chase_query.specs.Meanings.{query_of};
    ghost use Rattle.chase_update.specs.Rows.{Row as RowMeant};
    ghost use Rattle.chase_update.specs.RowMeanings.{row_of};

    ghost Meaning = { RowMeant };

    ghost meaning = { λ r. row_of r.row (query_of r.query) };

    fn copy(&self, alloc: Global) -> Result<Reading, Memory>
        ensures same { IfOk result (λ copy. row_of copy.row (query_of copy.query) ≡
            row_of self.now.row (query_of self.now.query)) }
    {
        Ok(Reading {
            query: self.query.copy(alloc)?,
            row: self.row.copy(alloc)?,
        })
    }
}
