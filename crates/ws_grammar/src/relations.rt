//! Declarations of relations.

use crate::cursors::Cursor;
use crate::items::Item;
use crate::standing::Names;
use std::alloc::Global;
use ws_fault::{Refusal, Status};
use ws_written::{Column, Relation};

/// The greatest number of columns of a relation.
const MOST: usize = 8;

// The declaration of a relation.
impl Item for Relation {
    fn read(cursor: &mut Cursor<'_>) -> Result<Relation, Refusal> {
        let name = cursor.plain_name("a name of the relation")?;
        let columns = cursor.new_columns(name.as_str())?;
        Ok(Relation { name, columns })
    }
}

/// Reads the relation that a text declares, `NAME(COLUMN, ..)` or `NAME K`. A fault is the first one from the left.
pub fn read_relation(alloc: Global, text: &str) -> Result<Relation, Refusal> {
    Cursor::over(alloc, Names::of(&[]), text).last()
}

// Whether one of the columns has this name; capitals do not matter.
fn has_column(columns: &[Column], name: &str) -> bool {
    for column in columns {
        if column.name.as_str().eq_ignore_ascii_case(name) {
            return true;
        }
    }
    false
}

impl<'a> Cursor<'a> {
    // The columns of a relation: their number, or their names between brackets.
    fn new_columns(&mut self, relation: &str) -> Result<Vec<Column>, Refusal> {
        if self.is_number() {
            return self.counted_columns();
        }
        let at = self.at();
        if !self.take_sign("(") {
            let hint = format!(in self.alloc; "such as relation {relation}(title, painter)")?;
            return self.fail_with("( and the columns", hint.as_str());
        }
        let columns = self.columns()?;
        if MOST < columns.len() {
            return self.unread(at, "a relation has 8 columns at most", "");
        }
        Ok(columns)
    }

    // The columns `c1`, `c2`, .. of a declaration that gives only their number.
    fn counted_columns(&mut self) -> Result<Vec<Column>, Refusal> {
        let count = self.count("columns", 1, 8)?;
        let mut columns = Vec::new(self.alloc);
        for number in 1..=count {
            let name = format!(in self.alloc; "c{number}")?;
            columns.push(Column { name, key: false })?;
        }
        Ok(columns)
    }

    fn columns(&mut self) -> Result<Vec<Column>, Refusal> {
        let mut columns = Vec::new(self.alloc);
        for _ in 0..u64::MAX {
            let column = self.column_after(columns.as_slice())?;
            columns.push(column)?;
            if self.closes()? {
                break;
            }
        }
        Ok(columns)
    }

    // Reads a column, whose name must differ from the names before it by more than capitals.
    fn column_after(&mut self, before: &[Column]) -> Result<Column, Refusal> {
        let at = self.at();
        let name = self.plain_name("a column")?;
        if has_column(before, name.as_str()) {
            let words = format!(in self.alloc; "column {name} stands twice");
            return self.refuse(Status::Unread, at, words, Ok(None));
        }
        let key = self.take_sign("*");
        Ok(Column { name, key })
    }
}
