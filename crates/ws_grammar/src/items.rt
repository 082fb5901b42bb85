//! Items of a line, and lists of items.

use crate::cursors::Cursor;
use ws_fault::Refusal;

/// Something that can be read at a place of a line.
pub(crate) trait Item: Drop + Sized {
    fn read(cursor: &mut Cursor<'_>) -> Result<Self, Refusal>;
}

impl<'a> Cursor<'a> {
    /// One item or more, with commas between them. The list has no spare room.
    pub(crate) fn joined<T: Item>(&mut self) -> Result<Vec<T>, Refusal> {
        let mut items = Vec::new(self.alloc);
        for _ in 0..u64::MAX {
            items.push(T::read(self)?)?;
            if !self.take_sign(",") {
                break;
            }
        }
        items.shrink_to_fit();
        Ok(items)
    }

    /// One item or more, up to a closing bracket. The list has no spare room.
    pub(crate) fn to_bracket<T: Item>(&mut self) -> Result<Vec<T>, Refusal> {
        let mut items = Vec::new(self.alloc);
        for _ in 0..u64::MAX {
            items.push(T::read(self)?)?;
            if self.closes()? {
                break;
            }
        }
        items.shrink_to_fit();
        Ok(items)
    }

    /// Takes the comma or the bracket after an item, and tells whether the list ends.
    pub(crate) fn closes(&mut self) -> Result<bool, Refusal> {
        if self.take_sign(")") {
            return Ok(true);
        }
        self.sign(",", "a comma or )")?;
        Ok(false)
    }

    /// A relation, and the items between brackets after it.
    pub(crate) fn tuple<T: Item>(&mut self) -> Result<(u32, Vec<T>), Refusal> {
        let at = self.at();
        let name = self.name("a relation")?;
        if !self.take_sign("(") {
            let expected = format!(in self.alloc; "( behind {name}")?;
            return self.fail(expected.as_str());
        }
        let items = self.to_bracket()?;
        let relation = self.relation_of(at, name, items.len())?;
        Ok((relation, items))
    }

    /// An item, and then the end of a line of the file.
    pub(crate) fn last<T: Item>(&mut self) -> Result<T, Refusal> {
        let item = T::read(self)?;
        match self.end_of_file_line() {
            Ok(()) => Ok(item),
            Err(refusal) => {
                drop(item);
                Err(refusal)
            }
        }
    }
}
