//! The choice that a text spells.
ghost use Rattle.std.specs.Prelude.{◌≡◌, ◌↔◌, map, IfNone, IfOk, IfSome, IsTrue};
ghost use Rattle.std.specs.Option.{option_map};
ghost use Rattle.base_types.specs.Meanings.{choice_of, fact_of};
ghost use Rattle.lang_forms.specs.Statements.{choice_of as choice_meant};
ghost use Rattle.lang_forms.specs.Views.{fact_of as fact_meant, words_of};
ghost use Rattle.def_language.specs.Forms.{choice_at};
ghost use Rattle.def_language.specs.Statements.{WrittenChoice};
ghost use Rattle.lang_reader.specs.Places.{IsOneLine};
ghost use Rattle.audit_claims.specs.Choices.{IsRead, SaysChoice, SpellsChoice, choice_on, known_choice, known_facts};

use base_types::{Choice, Memory, TupleList};
use lang_forms::{FormRefusal, RawChoice, RawFact, Words, choice_at};
use lang_lex::{LexRefusal, utf8_end};
use lang_reader::tuple_in;
use lang_schema::Schema;
use memchr::memchr;
use std::alloc::Global;

/// What a text says over the relations of a schema.
#[derive(Debug, Drop)]
pub enum ChoiceText {
    /// It is nothing that may follow the label of an answer.
    Malformed,
    /// It may follow the label of an answer, but the schema lacks one of its relations, or has it with another number of columns.
    Unknown,
    /// It is this choice.
    Choice(Choice),
}

/// Reads the text of a choice as it stands after the label of an answer. A null may come from any update.
pub fn read_choice(alloc: Global, schema: &Schema, text: &[u8]) -> Result<ChoiceText, Memory>
    ensures says { IfOk result (SaysChoice schema.now text.now) }
{
    let Some(written) = written_choice(alloc, text)? else {
        return Ok(ChoiceText::Malformed);
    };
    match known_choice(alloc, schema, written)? {
        Some(choice) => Ok(ChoiceText::Choice(choice)),
        None => Ok(ChoiceText::Unknown),
    }
}

// The choice that a text spells, if it spells one.
fn written_choice(alloc: Global, text: &[u8]) -> Result<Option<RawChoice>, Memory>
    ensures some { IfOk result (λ found. IfSome found (λ written.
        SpellsChoice text.now (choice_meant written))) }
    ensures none { IfOk result (λ found. IfNone found ((choice : WrittenChoice) →
        SpellsChoice text.now choice → ⊥)) }
{
    if utf8_end(text).is_some() {
        return Ok(None);
    }
    if !is_one_line(text) {
        return Ok(None);
    }
    choice_on(alloc, text)
}

// Whether a text has no line feed.
fn is_one_line(text: &[u8]) -> bool
    ensures one_line { IsTrue result ↔ IsOneLine text.now }
{
    memchr(b'\n', text).is_none()
}

// The choice that the words of a line spell, if they spell one.
fn choice_on(alloc: Global, line: &[u8]) -> Result<Option<RawChoice>, Memory>
    ensures choice { IfOk result (λ found. IsRead found (choice_on line.now)) }
{
    match Words::of(line) {
        Ok(words) => choice_in(alloc, words),
        Err(LexRefusal::Memory) => Err(Memory),
        Err(_) => Ok(None),
    }
}

// The choice that the words spell, if they spell one.
fn choice_in(alloc: Global, words: Words<'_>) -> Result<Option<RawChoice>, Memory>
    ensures choice { IfOk result (λ found. IsRead found (choice_at (words_of words.entry))) }
{
    match choice_at(alloc, words) {
        Ok(written) => Ok(Some(written)),
        Err(FormRefusal::Memory) => Err(Memory),
        Err(_) => Ok(None),
    }
}

// The choice over the relations; None if a fact's relation is unknown or has another number of columns.
fn known_choice(
    alloc: Global,
    schema: &Schema,
    written: RawChoice,
) -> Result<Option<Choice>, Memory>
    ensures known { IfOk result (λ known. option_map choice_of known ≡
        known_choice schema.now (choice_meant written)) }
{
    match written {
        RawChoice::Expand => Ok(Some(Choice::Expand)),
        RawChoice::Unify(fact) => Ok(tuple_in(alloc, schema, &fact)?.map(Choice::Unify)),
        RawChoice::Delete(facts) => {
            Ok(known_facts(alloc, schema, facts.as_slice())?.map(Choice::Delete))
        }
    }
}

// The tuples of facts; None if a fact's relation is unknown or has another number of columns.
fn known_facts(
    alloc: Global,
    schema: &Schema,
    facts: &[RawFact],
) -> Result<Option<TupleList>, Memory>
    ensures known { IfOk result (λ known. option_map (λ l. map fact_of l.items) known ≡
        known_facts schema.now (map fact_meant facts.now)) }
{
    let mut tuples = TupleList::new(alloc);
    for fact in facts {
        let Some(tuple) = tuple_in(alloc, schema, fact)? else {
            return Ok(None);
        };
        tuples.push(tuple)?;
    }
    Ok(Some(tuples))
}
