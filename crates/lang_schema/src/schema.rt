//! The relations of a session by name and by number.

ghost use Rattle.std.specs.Prelude.{◌≡◌, [], pos, length, position, slice_get, option_map, IfOk, OnErr};
ghost use Rattle.def_language.specs.Names.{same_name};
ghost use Rattle.def_language.specs.Sessions.{relation_names};
ghost use Rattle.def_language.specs.Checks.{add_relation, is_arity};
ghost use Rattle.def_language.specs.Meaning.{relation_of};
ghost use Rattle.def_language.specs.Printing.{name_of};
ghost use Rattle.lang_schema.specs.Answers.{Gives};
ghost use Rattle.lang_schema.specs.Relations.{with_relations};

use crate::refusals::SchemaRefusal;
use base_types::{Name, TryCopy};
use def_language::Which;
use indexmap::IndexMap;
use std::alloc::Global;
use std::marker::Model;

/// The relations of a session, numbered from 0 in the order in which they came: at most 128, each with
/// a name of its own and 1 to 8 columns. Contracts see them as a list.
#[derive(Drop)]
pub struct Schema {
    relations: IndexMap<Vec<u8>, u16>,
}

impl Model for Schema {
    ghost use Rattle.std.specs.Prelude.{◌≤◌, List, length, map};
    ghost use Rattle.def_language.specs.Sessions.{RelationSchema};

    ghost Value = { List RelationSchema };

    ghost view = { λ s. map (λ e. record { name = e.0.items; arity = e.1 }) s.relations.entries };

    ghost invariant = { λ s. length s.relations.entries ≤ 128 };
}

// 1 to 8
fn is_arity(arity: u16) -> bool
    ensures { result ≡ is_arity (pos arity) }
{
    1 <= arity && arity <= 8
}

impl Schema {
    /// The schema without relations.
    pub fn new(alloc: Global) -> Schema
        ensures empty { result ≡ [] }
    {
        Schema {
            relations: IndexMap::new(alloc),
        }
    }

    /// The number of relations.
    pub fn len(&self) -> u16
        ensures length { result ≡ length self.now }
    {
        self.relations.len() as u16
    }

    /// The number of the relation with this name; None exactly if there is none. The search is by hash.
    pub fn find(&self, name: &Name) -> Option<u16>
        ensures place { result ≡ position (same_name name.now.items) (relation_names self.now) }
    {
        match self.relations.get_index_of(name.as_slice()) {
            Some(index) => Some(index as u16),
            None => None,
        }
    }

    /// The number of columns of a relation; None exactly if no relation has the number.
    pub fn arity(&self, relation: u16) -> Option<u16>
        ensures arity { result ≡ option_map (λ r. r.arity) (slice_get self.now relation) }
    {
        match self.relations.get_index(relation as usize) {
            Some((_, arity)) => Some(*arity),
            None => None,
        }
    }

    /// The name of a relation; the empty name if no relation has the number.
    pub fn name(&self, relation: u16) -> &[u8]
        ensures name { result.now ≡ name_of (relation_names self.now) relation }
    {
        match self.relations.get_index(relation as usize) {
            Some((name, _)) => name.as_slice(),
            None => &[],
        }
    }

    /// Adds a relation, which takes the next number. It is refused as `relation NAME NUMBER` is in a session of format 2: if the
    /// name is taken, if the arity is not from 1 to 8, and if there are 128 relations, in this order.
    pub fn relation(&mut self, name: Name, arity: u16) -> Result<u16, SchemaRefusal>
        ensures checked { Gives (λ _. with_relations self.new) result
            (add_relation (with_relations self.old) name.items (pos arity)) }
        ensures number { IfOk result (λ number. number ≡ length self.old) }
        ensures err { OnErr result (self.new ≡ self.old) }
    {
        if self.find(&name).is_some() {
            return Err(SchemaRefusal::DuplicateName(name));
        }
        if !is_arity(arity) {
            return Err(SchemaRefusal::Limit(Which::Arity));
        }
        let number = self.len();
        if 128 <= number {
            return Err(SchemaRefusal::Limit(Which::Relations));
        }
        self.relations.insert(name.into_vec(), arity)?;
        Ok(number)
    }

    /// The number of the relation with this name that is used with `columns` columns. It is refused if no relation has the name,
    /// and then if the relation has another number of columns.
    pub fn relation_of(
        &self,
        alloc: Global,
        name: &Name,
        columns: usize,
    ) -> Result<u16, SchemaRefusal>
        ensures { Gives (λ r. r) result (relation_of self.now name.now.items columns) }
    {
        let Some(relation) = self.find(name) else {
            return Err(SchemaRefusal::UnknownRelation(name.copy(alloc)?));
        };
        let Some(expected) = self.arity(relation) else {
            return Err(SchemaRefusal::UnknownRelation(name.copy(alloc)?));
        };
        if expected as usize == columns {
            return Ok(relation);
        }
        Err(SchemaRefusal::Arity {
            name: name.copy(alloc)?,
            expected,
            found: columns as u64,
        })
    }
}
