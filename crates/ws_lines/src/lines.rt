//! Lines of a log.
ghost use Rattle.std.specs.Prelude.{◌≡◌, List, ℕ, IfOk};
ghost use Rattle.ws_lines.specs.Meanings.{table_name};

use crate::answers::Given;
use crate::deeds::Update;
use base_types::{List, Mapping, Memory, Name, NameList, NumberList, TryCopy};
use std::alloc::Global;

/// A relation: its name, its columns, and for each column whether it belongs to the key.
#[derive(Drop)]
pub struct Table {
    pub name: Name,
    pub columns: NameList,
    pub key: Vec<bool>,
}

/// Relations by number.
pub type TableList = List<Table>;

/// A line of a log. It says an update, gives an update an answer, or lets one try again; it undoes updates, redoes them, or makes
/// them lose the answers that they had up to here; or it declares a relation or a mapping.
#[derive(Drop)]
pub enum Line {
    Update(Update),
    Answer(u32, Given),
    Go(u32),
    Undo(NumberList),
    Redo(NumberList),
    Forget(NumberList),
    Relation(Table),
    Mapping(Mapping),
}

/// Lines in the order of the log.
pub type LineList = List<Line>;

impl TryCopy for Table {
    ghost Meaning = { List ℕ };

    ghost meaning = { table_name };

    fn copy(&self, alloc: Global) -> Result<Table, Memory>
        ensures same { IfOk result (λ copy. table_name copy ≡ table_name self.now) }
    {
        let mut key = Vec::new(alloc);
        key.extend_from_slice(&self.key)?;
        Ok(Table {
            name: self.name.copy(alloc)?,
            columns: self.columns.copy(alloc)?,
            key,
        })
    }
}
