//! Declared relations and mappings, by their numbers.

use crate::lines::apart;
use crate::sources::number_of;
use crate::spaces::Space;
use base_types::Memory;
use std::alloc::Global;
use ws_grammar::place_of;
use ws_written::{Line, Relation, Rule};

impl Space {
    // Notes what the line declares, so that its name is known from now on.
    pub(crate) fn declare(&mut self, alloc: Global, line: &Line) -> Result<(), Memory> {
        match line {
            Line::Relation(relation) => self.declare_relation(relation.clone()?),
            Line::Mapping(rule) => self.declare_rule(apart(alloc, rule)?),
            _ => Ok(()),
        }
    }

    fn declare_relation(&mut self, relation: Relation) -> Result<(), Memory> {
        if let Some(place) = place_of(self.relations.as_slice(), relation.name.as_str()) {
            if let Some(old) = self.relations.get_mut(place) {
                *old = relation;
                return Ok(());
            }
        }
        self.relations.push(relation)?;
        Ok(())
    }

    fn declare_rule(&mut self, rule: Rule) -> Result<(), Memory> {
        if let Some(place) = number_of(self.rules.as_slice(), rule.name.as_str()) {
            if let Some(old) = self.rules.get_mut(usize::from(place)) {
                *old = rule;
                return Ok(());
            }
        }
        self.rules.push(rule)?;
        Ok(())
    }
}
