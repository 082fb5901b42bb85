//! What a state has: relations, mappings, tuples, names, and updates.

use crate::states::{HeldList, Mark, State, mapping_among, table_among};
use crate::worlds::{StandingList, WaitingList};
use base_types::{MappingList, Memory, TupleList};
use set_facts::IndexedFacts;
use std::alloc::Global;
use ws_lines::{TableList, Update};
use ws_names::Names;

impl State {
    /// The relations by number.
    pub fn tables(&self) -> &TableList {
        &self.tables
    }

    /// The mappings that are declared, by number.
    pub fn mappings(&self) -> &MappingList {
        &self.mappings
    }

    /// The numbers of the mappings in force, in their order.
    pub fn in_force(&self) -> &[u16] {
        self.world.in_force.as_slice()
    }

    /// Whether the mapping with this number is gone.
    pub fn is_gone(&self, mapping: u16) -> bool {
        self.world.is_gone(mapping)
    }

    /// The number of the relation with this name; None if there is none.
    pub fn table_number(&self, name: &[u8]) -> Option<u16> {
        table_among(&self.tables, name)
    }

    /// The number of the mapping with this name, gone or not; None if there is none.
    pub fn mapping_number(&self, name: &[u8]) -> Option<u16> {
        mapping_among(&self.mappings, name)
    }

    /// The tuples, with their nulls within.
    pub fn facts(&self) -> &IndexedFacts {
        &self.world.ground.facts
    }

    /// The names of the nulls within.
    pub fn names(&self) -> &Names {
        &self.world.ground.names
    }

    /// The tuples by names, in the order of the tuples within.
    pub fn visible(&self, alloc: Global) -> Result<TupleList, Memory> {
        let tuples = self.world.ground.facts.list(alloc)?;
        self.names().tuples(alloc, tuples.as_slice())
    }

    /// The held updates: those that waited at the last fold, and those of the log.
    pub fn held(&self) -> &HeldList {
        &self.held
    }

    /// The update with this number; None if it is not held.
    pub fn update(&self, number: u32) -> Option<&Update> {
        let held = self.held.get(self.place_of(number)?)?;
        Some(&held.update)
    }

    /// The updates that stand, in the order in which they came to stand.
    pub fn order(&self) -> &StandingList {
        &self.world.order
    }

    /// The updates that wait.
    pub fn waiting(&self) -> &WaitingList {
        &self.world.waiting
    }

    /// The greatest number of an update.
    pub fn last(&self) -> u32 {
        self.last
    }

    /// The present place in the log, from which the effect of later lines is measured.
    pub fn mark(&self) -> Mark {
        Mark {
            last: self.world.ground.last,
            trail: self.world.ground.trail.len(),
            order: self.world.order.len(),
        }
    }
}
