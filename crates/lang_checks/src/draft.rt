//! The session that has been taken so far.

ghost use Rattle.std.specs.Prelude.{◌≡◌, IfOk, OnErr};
ghost use Rattle.def_language.specs.Sessions.{empty_session};
ghost use Rattle.def_language.specs.Checks.{taken};
ghost use Rattle.lang_forms.specs.Statements.{statement_of};
ghost use Rattle.lang_session.specs.Meanings.{session_of};
ghost use Rattle.lang_checks.specs.Answers.{Gives};

mod asked;
mod given;

use crate::bases::Base;
use crate::refusals::TakeRefusal;
use crate::updates::Updates;
use base_types::{List, MappingList, Memory};
use lang_forms::RawStatement;
use lang_schema::Schema;
use lang_session::Session;
use std::alloc::Global;
use std::marker::Model;
use std::mem;

/// A session that grows statement by statement. Contracts see the session that has been taken so far.
#[derive(Drop)]
pub struct Draft {
    format: u8,
    schema: Schema,
    mappings: MappingList,
    base: Base,
    updates: Updates,
}

impl Model for Draft {
    ghost use Rattle.std.specs.Prelude.{◌≤◌, length, map};
    ghost use Rattle.def_language.specs.Sessions.{SessionData};
    ghost use Rattle.lang_schema.specs.Meanings.{session_mapping_of};

    ghost Value = { SessionData };

    ghost view = { λ d. record {
      format = d.format;
      relations = d.schema;
      mappings = map session_mapping_of d.mappings.items;
      base = d.base;
      updates = d.updates;
    } };

    ghost invariant = { λ d. length d.schema ≤ 128 };
}

impl Draft {
    /// The session after the header of a format.
    pub fn new(alloc: Global, format: u8) -> Draft
        ensures empty { result ≡ empty_session format }
    {
        Draft {
            format,
            schema: Schema::new(alloc),
            mappings: List::new(alloc),
            base: Base::new(alloc),
            updates: Updates::new(alloc),
        }
    }

    /// The format of the session.
    pub fn format(&self) -> u8
        ensures format { result ≡ self.now.format }
    {
        self.format
    }

    /// The session.
    pub fn into_session(self, alloc: Global) -> Result<Session, Memory>
        ensures same { IfOk result (λ session. session_of session ≡ self) }
    {
        let Draft {
            format,
            schema,
            mappings,
            base,
            updates,
        } = self;
        match base.into_list(alloc) {
            Ok(base) => Ok(Session {
                format,
                schema,
                mappings,
                base,
                updates: updates.into_list(),
            }),
            Err(memory) => {
                drop((schema, mappings, updates));
                Err(memory)
            }
        }
    }

    /// Takes one more statement, which must stand in its section. A header begins the session again. It is refused with the first
    /// fault of its checks; then nothing has changed.
    pub fn take(&mut self, alloc: Global, statement: RawStatement) -> Result<(), TakeRefusal>
        ensures taken { Gives (λ _. self.new) result (taken self.old (statement_of statement)) }
        ensures err { OnErr result (self.new ≡ self.old) }
    {
        match statement {
            RawStatement::Header(format) => {
                drop(mem::replace(self, Draft::new(alloc, format)));
                Ok(())
            }
            RawStatement::Relation(name, columns) => self.add_relation(name, columns),
            RawStatement::Mapping(mapping) => self.add_mapping(alloc, mapping),
            RawStatement::Base(fact) => self.add_tuple(alloc, fact),
            RawStatement::Update(label, curator, operation) => {
                self.add_update(alloc, label, curator, operation)
            }
            RawStatement::Answer(label, choice) => self.add_answer(alloc, label, choice),
            RawStatement::End => Ok(()),
        }
    }
}
