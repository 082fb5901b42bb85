//! The mappings of a session, within their limits.
ghost use Rattle.std.specs.Prelude.{◌≡◌, ◌≤◌, length, map, slice_get, IfSome};
ghost use Rattle.std.specs.Option.{option_copied, option_map};
ghost use Rattle.base_types.specs.Meanings.{rule_of};
ghost use Rattle.base_limits.specs.Within.{AreWithin};

use base_types::{Mapping, MappingList};
use std::marker::Model;

/// The mappings of a session by number: at most 65,536, each with at most 64 existential variables. Contracts see the
/// rules that they stand for.
#[derive(Drop)]
pub struct Mappings<'a> {
    list: &'a MappingList,
}

impl<'a> Model for Mappings<'a> {
    ghost use Rattle.std.specs.Prelude.{List, map};
    ghost use Rattle.def_chase.specs.Mappings.{Rule};
    ghost use Rattle.base_types.specs.Meanings.{rule_of};
    ghost use Rattle.base_limits.specs.Within.{AreWithin};

    ghost Value = { List Rule };

    ghost view = { λ m. map rule_of m.list.now.items };

    ghost invariant = { λ m. AreWithin (map rule_of m.list.now.items) };
}

impl<'a> Mappings<'a> {
    /// The mappings of the list, which must be within the limits.
    pub fn of(list: &'a MappingList) -> Mappings<'a>
        requires within { AreWithin (map rule_of list.now.items) }
        ensures rules { result ≡ map rule_of list.now.items }
    {
        Mappings { list }
    }

    /// The list of the mappings, with their names.
    pub fn list(&self) -> &'a MappingList
        ensures rules { map rule_of result.now.items ≡ self.now }
    {
        self.list
    }

    /// The number of mappings.
    pub fn len(&self) -> usize
        ensures length { result ≡ length self.now }
        ensures most { result ≤ 65536 }
    {
        self.list.len()
    }

    /// The mapping of this number; None exactly if there is none.
    pub fn get(&self, number: usize) -> Option<&'a Mapping>
        ensures item { option_map rule_of (option_copied result) ≡ slice_get self.now number }
        ensures few { IfSome result (λ mapping. (rule_of mapping.now).existential ≤ 64) }
    {
        self.list.get(number)
    }
}
