//! Names, each once, with a search by hash.

ghost use Rattle.std.specs.Prelude.{◌≡◌, ◌<◌, ◌≤◌, [], length, map, position, IfOk, IfSome, IsOk, OnOk, OnErr};
ghost use Rattle.def_language.specs.Names.{is_one_of, same_name, with_new};

use base_types::{List, Memory, Name, NameList};
use indexmap::IndexSet;
use std::alloc::Global;
use std::marker::Model;

/// Names, each once, in the order in which they came. Contracts see them as a list, with the number of further names that it
/// takes before it asks for memory.
#[derive(Drop)]
pub struct Names {
    names: IndexSet<Vec<u8>>,
}

impl Model for Names {
    ghost use Rattle.std.specs.Prelude.{ℕ, List, map};
    ghost use Rattle.indexmap.specs.IndexSet.{spare};
    ghost use Rattle.base_types.specs.Listed.{Listed};

    ghost Value = { Listed (List ℕ) };

    ghost view = { λ n. record { items = map (λ k. k.items) n.names.keys; spare = spare n.names } };
}

impl Names {
    /// No name.
    pub fn new(alloc: Global) -> Names
        ensures empty { result.items ≡ [] }
    {
        Names {
            names: IndexSet::new(alloc),
        }
    }

    /// The number of names.
    pub fn len(&self) -> usize
        ensures length { result ≡ length self.now.items }
    {
        self.names.len()
    }

    /// The place of a name, counted from 0; None exactly if it is not in the list.
    pub fn find(&self, name: &Name) -> Option<usize>
        ensures place { result ≡ position (same_name name.now.items) self.now.items }
        ensures within { IfSome result (λ place. place < length self.now.items) }
    {
        self.names.get_index_of(name.as_slice())
    }

    /// Whether the name is in the list.
    pub fn has(&self, name: &Name) -> bool
        ensures one { result ≡ is_one_of self.now.items name.now.items }
    {
        self.find(name).is_some()
    }

    /// Makes room for one more name. The names stay as they are.
    pub fn reserve(&mut self) -> Result<(), Memory>
        ensures room { OnOk result (1 ≤ self.new.spare) }
        ensures same { self.new.items ≡ self.old.items }
    {
        self.names.reserve(1)?;
        Ok(())
    }

    /// Adds a name at the end, unless it is there. It is never refused if `spare` is at least 1. If it is refused, the names are
    /// unchanged.
    pub fn note(&mut self, name: Vec<u8>) -> Result<(), Memory>
        ensures ok { OnOk result (self.new.items ≡ with_new same_name self.old.items name.items) }
        ensures err { OnErr result (self.new.items ≡ self.old.items) }
        ensures room { 1 ≤ self.old.spare → IsOk result }
    {
        self.names.insert(name)?;
        Ok(())
    }

    /// The names in the order in which they came.
    pub fn list(&self, alloc: Global) -> Result<NameList, Memory>
        ensures same { IfOk result (λ names. map (λ n. n.items) names.items ≡ self.now.items) }
    {
        let mut names = List::new(alloc);
        for name in self.names.as_slice() {
            names.push(List::from_vec(Vec::from_slice(alloc, name)?))?;
        }
        Ok(names)
    }
}
