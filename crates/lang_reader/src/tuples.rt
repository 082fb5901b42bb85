//! A tuple from the text of a fact.

ghost use Rattle.std.specs.Prelude.{◌≡◌, IfNone, IfOk, IfSome};
ghost use Rattle.std.specs.Option.{option_map};
ghost use Rattle.base_types.specs.Meanings.{fact_of as tuple_meant};
ghost use Rattle.lang_forms.specs.Views.{fact_of as fact_meant};
ghost use Rattle.def_language.specs.Meaning.{fact_of};
ghost use Rattle.def_language.specs.Statements.{WrittenFact};
ghost use Rattle.lang_reader.specs.Answers.{Gives};
ghost use Rattle.lang_reader.specs.Facts.{Says, SpellsFact, fact_on, known_fact};

use crate::faults::LineRefusal;
use crate::split::is_one_line;
use crate::words::words_at;
use base_types::{Memory, TryCopy, Tuple};
use lang_forms::{RawFact, whole_fact};
use lang_lex::utf8_end;
use lang_schema::Schema;
use std::alloc::Global;

/// The meaning of a text over the relations of a schema.
#[derive(Debug, Drop)]
pub enum TupleText {
    /// The text is no fact.
    Malformed,
    /// The text is a fact whose relation the schema lacks, or has with another number of columns.
    Unknown,
    /// The text is this tuple.
    Tuple(Tuple),
}

// The fact that the words of a line spell.
fn fact_on(alloc: Global, line: &[u8]) -> Result<RawFact, LineRefusal>
    ensures { Gives fact_meant result (fact_on line.now) }
{
    let words = words_at(0, line)?;
    Ok(whole_fact(alloc, words)?)
}

/// The fact that a text spells, if it spells one. Blanks and a comment may stand around the fact; a line feed may stand nowhere.
pub fn read_fact(alloc: Global, text: &[u8]) -> Result<Option<RawFact>, Memory>
    ensures some { IfOk result (λ found. IfSome found (λ fact.
        SpellsFact text.now (fact_meant fact))) }
    ensures none { IfOk result (λ found. IfNone found ((fact : WrittenFact) →
        SpellsFact text.now fact → ⊥)) }
{
    if utf8_end(text).is_some() {
        return Ok(None);
    }
    if !is_one_line(text) {
        return Ok(None);
    }
    match fact_on(alloc, text) {
        Ok(fact) => Ok(Some(fact)),
        Err(LineRefusal::Fault(_)) => Ok(None),
        Err(LineRefusal::Memory) => Err(Memory),
    }
}

// The tuple of a fact.
#[tactic(auto, unfolding(def_language::specs::Meaning::fact_of))]
fn tuple_of(alloc: Global, schema: &Schema, fact: RawFact) -> Result<Tuple, LineRefusal>
    ensures { Gives tuple_meant result (fact_of schema.now (fact_meant fact)) }
{
    let relation = schema.relation_of(alloc, &fact.relation, fact.values.len())?;
    Ok(Tuple::new(alloc, relation, fact.values)?)
}

/// The tuple of a fact over a schema; None exactly if the schema lacks its relation, or has it with another number of columns. A
/// null may come from any update.
pub fn tuple_in(alloc: Global, schema: &Schema, fact: &RawFact) -> Result<Option<Tuple>, Memory>
    ensures tuple { IfOk result
        (λ found. option_map tuple_meant found ≡
        known_fact (fact_of schema.now (fact_meant fact.now))) }
{
    let copy = RawFact {
        relation: fact.relation.copy(alloc)?,
        values: fact.values.copy(alloc)?,
    };
    match tuple_of(alloc, schema, copy) {
        Ok(tuple) => Ok(Some(tuple)),
        Err(LineRefusal::Fault(_)) => Ok(None),
        Err(LineRefusal::Memory) => Err(Memory),
    }
}

/// Reads the text of a fact as a tuple of a schema. Blanks and a comment may stand around the fact; a line feed may stand
/// nowhere. A null may come from any update.
pub fn read_tuple(alloc: Global, schema: &Schema, text: &[u8]) -> Result<TupleText, Memory>
    ensures says { IfOk result (Says schema.now text.now) }
{
    let Some(fact) = read_fact(alloc, text)? else {
        return Ok(TupleText::Malformed);
    };
    match tuple_of(alloc, schema, fact) {
        Ok(tuple) => Ok(TupleText::Tuple(tuple)),
        Err(LineRefusal::Fault(_)) => Ok(TupleText::Unknown),
        Err(LineRefusal::Memory) => Err(Memory),
    }
}
