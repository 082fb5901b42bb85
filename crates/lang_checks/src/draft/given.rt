//! The parts with which a session begins: relations, mappings and base tuples.

ghost use Rattle.std.specs.Prelude.{◌≡◌, ◌<◌, IfOk, OnErr, length};
ghost use Rattle.def_language.specs.Checks.{add_mapping, add_relation, add_tuple};
ghost use Rattle.lang_forms.specs.Views.{fact_of, mapping_of as mapping_written};
ghost use Rattle.lang_schema.specs.Meanings.{session_mapping_of};
ghost use Rattle.lang_checks.specs.Additions.{with_mapping};
ghost use Rattle.lang_checks.specs.Answers.{Gives};

use super::Draft;
use crate::cycles::has_plain_cycle;
use crate::facts::bounded_fact;
use crate::limits::{arity_of, has_relation, most_relations, most_tuples};
use crate::mappings::{has_mapping, mapping_of, mappings_full};
use crate::refusals::{TakeRefusal, limit};
use base_types::{Mapping, Name};
use lang_forms::{RawFact, RawMapping};
use lang_schema::{SchemaRefusal, Which};
use std::alloc::Global;

impl Draft {
    // Adds a relation. Its name must be new, its arity must fit, and there must be room.
    #[tactic(auto, unfolding(def_language::specs::Checks::add_relation))]
    pub(crate) fn add_relation(&mut self, name: Name, columns: i64) -> Result<(), TakeRefusal>
        ensures taken { Gives (λ _. self.new) result (add_relation self.old name.items columns) }
        ensures err { OnErr result (self.new ≡ self.old) }
    {
        if has_relation(&self.schema, &name) {
            return Err(TakeRefusal::Schema(SchemaRefusal::DuplicateName(name)));
        }
        let Some(arity) = arity_of(columns) else {
            return Err(limit(Which::Arity));
        };
        if most_relations(self.format) <= self.schema.len() {
            return Err(limit(Which::Relations));
        }
        self.schema.relation(name, arity)?;
        Ok(())
    }

    // Checks a mapping that update `since` puts in force, or that is in force from the start if `since` is 0.
    #[tactic(auto, unfolding(def_language::specs::Checks::add_mapping))]
    pub(crate) fn checked_mapping(
        &self,
        alloc: Global,
        since: u32,
        mapping: RawMapping,
    ) -> Result<Mapping, TakeRefusal>
        ensures checked { Gives (λ m. with_mapping self.now (session_mapping_of m)) result
            (add_mapping self.now since (mapping_written mapping)) }
        ensures few { IfOk result (λ _. length self.now.mappings < 64) }
    {
        let mappings = self.mappings.as_slice();
        if has_mapping(mappings, &mapping.name) {
            return Err(TakeRefusal::Schema(SchemaRefusal::DuplicateName(mapping.name)));
        }
        if mappings_full(mappings, since) {
            return Err(limit(Which::Mappings));
        }
        let mapping = mapping_of(alloc, &self.schema, since, mapping)?;
        if has_plain_cycle(alloc, self.schema.len(), mappings, &mapping)? {
            return Err(TakeRefusal::PlainCycle(mapping.name));
        }
        Ok(mapping)
    }

    // Adds a mapping that is in force from the start.
    pub(crate) fn add_mapping(
        &mut self,
        alloc: Global,
        mapping: RawMapping,
    ) -> Result<(), TakeRefusal>
        ensures taken { Gives (λ _. self.new) result
            (add_mapping self.old 0 (mapping_written mapping)) }
        ensures err { OnErr result (self.new ≡ self.old) }
    {
        let mapping = self.checked_mapping(alloc, 0, mapping)?;
        self.mappings.push(mapping)?;
        Ok(())
    }

    // Adds a tuple of the base. A tuple that is given twice is kept once.
    #[tactic(auto, unfolding(def_language::specs::Checks::add_tuple))]
    pub(crate) fn add_tuple(&mut self, alloc: Global, fact: RawFact) -> Result<(), TakeRefusal>
        ensures taken { Gives (λ _. self.new) result (add_tuple self.old (fact_of fact)) }
        ensures err { OnErr result (self.new ≡ self.old) }
    {
        let tuple = bounded_fact(alloc, &self.schema, 0, fact)?;
        if self.base.is_full(most_tuples(self.format)) && !self.base.find(&tuple)? {
            return Err(limit(Which::Base));
        }
        self.base.insert(tuple)?;
        Ok(())
    }
}
