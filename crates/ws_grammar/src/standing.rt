//! The names that stand.

use crate::cursors::Cursor;
use crate::known::{Known, has_name};
use std::alloc::{AllocError, Global};
use ws_fault::{Refusal, Status};
use ws_print::{Text, add_count, add_form};
use ws_written::Relation;

/// The names that a command may use: the relations in the order of their declaration, and the mappings that were not dropped.
#[derive(Clone, Copy)]
pub struct Names<'a> {
    pub relations: &'a [Relation],
    pub mappings: &'a [String],
}

impl<'a> Names<'a> {
    /// Names of relations, without mappings.
    pub(crate) fn of(relations: &'a [Relation]) -> Names<'a> {
        Names {
            relations,
            mappings: &[],
        }
    }
}

/// The place of the relation of this name.
pub fn place_of(relations: &[Relation], name: &str) -> Option<usize> {
    for (place, relation) in relations.iter().enumerate() {
        if relation.name.as_str() == name {
            return Some(place);
        }
    }
    None
}

// The hint if no relation has this name.
fn relation_hint(
    alloc: Global,
    relations: &[Relation],
    name: &str,
) -> Result<Option<String>, AllocError> {
    if relations.is_empty() {
        return Ok(Some(format!(in alloc; "make one: relation {name}(COLUMN, ..)")?));
    }
    let mut known = Known::to(alloc, name, "known: ", ", ")?;
    for relation in relations {
        known.add(relation.name.as_str())?;
    }
    known.hint()
}

// The hint if no mapping has this name.
fn mapping_hint(
    alloc: Global,
    mappings: &[String],
    name: &str,
) -> Result<Option<String>, AllocError> {
    if mappings.is_empty() {
        return Ok(None);
    }
    let mut known = Known::to(alloc, name, "known: ", ", ")?;
    for mapping in mappings {
        known.add(mapping.as_str())?;
    }
    known.hint()
}

impl<'a> Cursor<'a> {
    /// Takes the name of a relation, and returns the relation's number.
    pub(crate) fn relation(&mut self) -> Result<u32, Refusal> {
        let at = self.at();
        let name = self.name("a relation")?;
        self.relation_at(at, name)
    }

    // The number of the relation whose name stood at `at`.
    fn relation_at(&self, at: usize, name: &str) -> Result<u32, Refusal> {
        if let Some(place) = place_of(self.names.relations, name) {
            return Ok(u32::try_from(place).unwrap_or(u32::MAX));
        }
        let hint = relation_hint(self.alloc, self.names.relations, name);
        let words = format!(in self.alloc; "there is no relation {name}");
        self.refuse(Status::Refused, at, words, hint)
    }

    /// The number of the relation whose name stood at `at`, in front of `found` values or terms.
    pub(crate) fn relation_of(&self, at: usize, name: &str, found: usize) -> Result<u32, Refusal> {
        let number = self.relation_at(at, name)?;
        match self.names.relations.get(number as usize) {
            Some(relation) if relation.columns.len() != found => self.misfit(at, relation, found),
            _ => Ok(number),
        }
    }

    // Refuses `found` values or terms for a relation with another number of columns.
    fn misfit(&self, at: usize, relation: &Relation, found: usize) -> Result<u32, Refusal> {
        let mut form = Text::from_str(self.alloc, "it is ");
        add_form(&mut form, relation);
        let form = form.done()?;
        let mut words = Text::from_str(self.alloc, relation.name.as_str());
        words.push_str(" has ");
        add_count(&mut words, relation.columns.len(), "column");
        write!(words, ", found {found}");
        self.refuse(Status::Refused, at, words.done(), Ok(Some(form)))
    }

    /// Takes the name of a known mapping.
    pub(crate) fn mapping(&mut self) -> Result<String, Refusal> {
        let at = self.at();
        let name = self.name("a mapping")?;
        if has_name(self.names.mappings, name) {
            return Ok(String::from_str(self.alloc, name)?);
        }
        let hint = mapping_hint(self.alloc, self.names.mappings, name);
        let words = format!(in self.alloc; "there is no mapping {name}");
        self.refuse(Status::Refused, at, words, hint)
    }

    /// Takes a new name for a relation, a column or a mapping, and refuses names that are kept for the program.
    pub(crate) fn plain_name(&mut self, expected: &str) -> Result<String, Refusal> {
        let at = self.at();
        let name = self.name(expected)?;
        if is_kept(name) {
            let words = "names that begin with _ or yt_ are kept for yt";
            let words = String::from_str(self.alloc, words);
            return self.refuse(Status::Refused, at, words, Ok(None));
        }
        Ok(String::from_str(self.alloc, name)?)
    }
}

fn is_kept(name: &str) -> bool {
    match name.as_bytes() {
        [b'_', ..] => true,
        [y, t, b'_', ..] => y.eq_ignore_ascii_case(&b'y') && t.eq_ignore_ascii_case(&b't'),
        _ => false,
    }
}
