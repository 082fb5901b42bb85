//! Whole statements, read from the left, each in its section.

ghost use Rattle.std.specs.Prelude.{◌≡◌, MatchOption, true, false};
ghost use Rattle.base_types.specs.Meanings.{null_of};
ghost use Rattle.def_language.specs.Names.{same_name};
ghost use Rattle.def_language.specs.Parts.{fact_at, whole};
ghost use Rattle.def_language.specs.Forms.{answer_at, begins, choice_at, columns_at, header_at, is_format, named_at, natural, operation_at, rank, relation_at, replace_at, replaced_at, statement_at, update_at, with_at};
ghost use Rattle.lang_forms.specs.Views.{Gives, fact_of as fact_meant, words_of};
ghost use Rattle.lang_forms.specs.Statements.{choice_of, operation_of, section_meant, statement_of};

use crate::cursor::Words;
use crate::faults::{FormRefusal, wants};
use crate::mappings::{facts_at, mapping_at};
use crate::parts::{end_at, fact_at, name_at, value_of};
use crate::raw::{RawChoice, RawOperation, RawStatement, Section};
use crate::words::{RawFact, Word};
use base_types::{Name, Null};
use def_language::Wanted;
use std::alloc::Global;

fn same_name(name: &[u8], word: &[u8]) -> bool
    ensures { result ≡ same_name name.now word.now }
{
    name == word
}

// The format of a header's number, if there is one.
fn format_of(number: i64) -> Option<u8>
    ensures { MatchOption result (is_format number ≡ false)
        (λ f. (is_format number ≡ true) × (f ≡ natural number)) }
{
    if number == 1 {
        return Some(1);
    }
    if number == 2 {
        return Some(2);
    }
    None
}

// The header.
#[tactic(auto, unfolding(def_language::specs::Forms::header_at))]
fn header_at(words: Words<'_>) -> Result<RawStatement, FormRefusal>
    ensures { Gives statement_of result (header_at (words_of words.entry)) }
{
    let Some((Word::Name(name), rest)) = words.split_first() else {
        return Err(FormRefusal::BadHeader);
    };
    let Some((Word::Number(number), rest)) = rest.split_first() else {
        return Err(FormRefusal::BadHeader);
    };
    if rest.split_first().is_some() {
        return Err(FormRefusal::BadHeader);
    }
    if !same_name(name, b"youtopia") {
        return Err(FormRefusal::BadHeader);
    }
    match format_of(number) {
        Some(format) => Ok(RawStatement::Header(format)),
        None => Err(FormRefusal::BadHeader),
    }
}

// The rest of a relation after its name.
fn columns_at(name: Name, words: Words<'_>) -> Result<RawStatement, FormRefusal>
    ensures { Gives statement_of result (columns_at name.items (words_of words.entry)) }
{
    match words.split_first() {
        Some((Word::Number(number), rest)) => {
            end_at(rest)?;
            Ok(RawStatement::Relation(name, number))
        }
        _ => Err(wants(Wanted::Number)),
    }
}

#[tactic(auto, unfolding(def_language::specs::Forms::relation_at))]
fn relation_at(alloc: Global, words: Words<'_>) -> Result<RawStatement, FormRefusal>
    ensures { Gives statement_of result (relation_at (words_of words.entry)) }
{
    let (name, rest) = name_at(alloc, words)?;
    columns_at(name, rest)
}

/// A fact to the end of the line. A refusal says what is missing at the first word that does not fit.
#[tactic(auto, unfolding(def_language::specs::Parts::whole))]
pub fn whole_fact(alloc: Global, words: Words<'_>) -> Result<RawFact, FormRefusal>
    ensures exact { Gives fact_meant result (whole (fact_at (words_of words.entry))) }
{
    let (fact, rest) = fact_at(alloc, words)?;
    end_at(rest)?;
    Ok(fact)
}

fn replaced_at(alloc: Global, null: Null, words: Words<'_>) -> Result<RawOperation, FormRefusal>
    ensures { Gives operation_of result (replaced_at (null_of null) (words_of words.entry)) }
{
    let Some((word, rest)) = words.split_first() else {
        return Err(wants(Wanted::Value));
    };
    let value = value_of(alloc, word)?;
    end_at(rest)?;
    Ok(RawOperation::Replace(null, value))
}

fn with_at(alloc: Global, null: Null, words: Words<'_>) -> Result<RawOperation, FormRefusal>
    ensures { Gives operation_of result (with_at (null_of null) (words_of words.entry)) }
{
    let Some((Word::Name(name), rest)) = words.split_first() else {
        return Err(wants(Wanted::With));
    };
    if !same_name(name, b"with") {
        return Err(wants(Wanted::With));
    }
    replaced_at(alloc, null, rest)
}

#[tactic(auto, unfolding(def_language::specs::Forms::replace_at))]
fn replace_at(alloc: Global, words: Words<'_>) -> Result<RawOperation, FormRefusal>
    ensures { Gives operation_of result (replace_at (words_of words.entry)) }
{
    let Some((Word::Null(name), rest)) = words.split_first() else {
        return Err(wants(Wanted::Null));
    };
    with_at(alloc, name.null(), rest)
}

#[tactic(auto, unfolding(def_language::specs::Forms::operation_at))]
fn operation_at(alloc: Global, format: u8, words: Words<'_>) -> Result<RawOperation, FormRefusal>
    ensures { Gives operation_of result (operation_at format (words_of words.entry)) }
{
    let Some((Word::Name(name), rest)) = words.split_first() else {
        return Err(wants(Wanted::Operation));
    };
    if same_name(name, b"insert") {
        return Ok(RawOperation::Insert(whole_fact(alloc, rest)?));
    }
    if same_name(name, b"delete") {
        return Ok(RawOperation::Delete(whole_fact(alloc, rest)?));
    }
    if same_name(name, b"replace") {
        return replace_at(alloc, rest);
    }
    if same_name(name, b"mapping") && format == 2 {
        return Ok(RawOperation::Enact(mapping_at(alloc, rest)?));
    }
    Err(wants(Wanted::Operation))
}

#[tactic(auto, unfolding(def_language::specs::Forms::update_at))]
fn update_at(alloc: Global, format: u8, words: Words<'_>) -> Result<RawStatement, FormRefusal>
    ensures { Gives statement_of result (update_at format (words_of words.entry)) }
{
    let (label, rest) = name_at(alloc, words)?;
    let (curator, rest) = name_at(alloc, rest)?;
    let operation = operation_at(alloc, format, rest)?;
    Ok(RawStatement::Update(label, curator, operation))
}

/// The choice of an answer, from the words after its label.
#[tactic(auto, unfolding(def_language::specs::Forms::choice_at))]
pub fn choice_at(alloc: Global, words: Words<'_>) -> Result<RawChoice, FormRefusal>
    ensures { Gives choice_of result (choice_at (words_of words.entry)) }
{
    let Some((Word::Name(name), rest)) = words.split_first() else {
        return Err(wants(Wanted::Choice));
    };
    if same_name(name, b"expand") {
        end_at(rest)?;
        return Ok(RawChoice::Expand);
    }
    if same_name(name, b"unify") {
        return Ok(RawChoice::Unify(whole_fact(alloc, rest)?));
    }
    if same_name(name, b"delete") {
        return Ok(RawChoice::Delete(facts_at(alloc, rest)?));
    }
    Err(wants(Wanted::Choice))
}

#[tactic(auto, unfolding(def_language::specs::Forms::answer_at))]
fn answer_at(alloc: Global, words: Words<'_>) -> Result<RawStatement, FormRefusal>
    ensures { Gives statement_of result (answer_at (words_of words.entry)) }
{
    let (label, rest) = name_at(alloc, words)?;
    let choice = choice_at(alloc, rest)?;
    Ok(RawStatement::Answer(label, choice))
}

fn rank(section: Section) -> u8
    ensures { result ≡ rank (section_meant section) }
{
    match section {
        Section::Beginning => 0,
        Section::Relations => 1,
        Section::Mappings => 2,
        Section::Tuples => 3,
        Section::Updates => 4,
        Section::Ended => 5,
    }
}

// Whether the first word is the name of a statement whose section is not over.
fn begins(section: Section, name: &[u8], word: &[u8], own: Section) -> bool
    ensures { result ≡ begins (section_meant section) name.now word.now (section_meant own) }
{
    same_name(name, word) && rank(section) <= rank(own)
}

// The statement that the first word of a line names.
#[tactic(auto, unfolding(def_language::specs::Forms::named_at))]
fn named_at(
    alloc: Global,
    section: Section,
    format: u8,
    name: &[u8],
    rest: Words<'_>,
) -> Result<RawStatement, FormRefusal>
    ensures { Gives statement_of result
        (named_at (section_meant section) format name.now (words_of rest.entry)) }
{
    if begins(section, name, b"relation", Section::Relations) {
        return relation_at(alloc, rest);
    }
    if begins(section, name, b"mapping", Section::Mappings) {
        return Ok(RawStatement::Mapping(mapping_at(alloc, rest)?));
    }
    if begins(section, name, b"base", Section::Tuples) {
        return Ok(RawStatement::Base(whole_fact(alloc, rest)?));
    }
    if begins(section, name, b"update", Section::Updates) {
        return update_at(alloc, format, rest);
    }
    if begins(section, name, b"answer", Section::Updates) {
        return answer_at(alloc, rest);
    }
    if begins(section, name, b"end", Section::Ended) {
        end_at(rest)?;
        return Ok(RawStatement::End);
    }
    Err(wants(Wanted::Statement))
}

/// The statement of a line that is not blank, in a section of a session of a format; or the header, if it is the first statement.
/// A refusal says what is missing at the first word that does not fit, or that the first line is no header.
#[tactic(auto, unfolding(def_language::specs::Forms::statement_at))]
pub fn statement_at(
    alloc: Global,
    section: Section,
    format: u8,
    words: Words<'_>,
) -> Result<RawStatement, FormRefusal>
    ensures exact { Gives statement_of result
        (statement_at (section_meant section) format (words_of words.entry)) }
{
    if section == Section::Beginning {
        return header_at(words);
    }
    match words.split_first() {
        Some((Word::Name(name), rest)) => named_at(alloc, section, format, name, rest),
        _ => Err(wants(Wanted::Statement)),
    }
}
