//! Answers and updates, spelled as in a session.
use base_types::{Choice, Name, Operation, Tuple, TupleList, Update};
use lang_forms::{
    RawChoice, RawFact, RawFactList, RawOperation, RawStatement, Section, Words, statement_at,
};
use lang_reader::tuple_in;
use lang_schema::Schema;
use std::alloc::Global;
use try_cases::CaseRefusal;

/// What a statement says: an answer for the update with a label, or one more update.
#[derive(Drop)]
pub enum Said {
    Answer(Name, Choice),
    Update(Update),
}

/// What the line says. An error if it is neither an answer nor an update that fits the schema.
pub fn read_statement(alloc: Global, schema: &Schema, line: &str) -> Result<Said, CaseRefusal> {
    let words = Words::of(line.as_bytes())?;
    match statement_at(alloc, Section::Updates, 2, words)? {
        RawStatement::Answer(label, choice) => {
            Ok(Said::Answer(label, choice_in(alloc, schema, choice)?))
        }
        RawStatement::Update(label, curator, operation) => Ok(Said::Update(Update {
            label,
            curator,
            operation: operation_in(alloc, schema, operation)?,
        })),
        _ => Err(CaseRefusal::Spelling),
    }
}

// The choice, its facts as tuples of the schema.
fn choice_in(alloc: Global, schema: &Schema, choice: RawChoice) -> Result<Choice, CaseRefusal> {
    match choice {
        RawChoice::Expand => Ok(Choice::Expand),
        RawChoice::Unify(fact) => Ok(Choice::Unify(known(alloc, schema, &fact)?)),
        RawChoice::Delete(facts) => Ok(Choice::Delete(all_known(alloc, schema, &facts)?)),
    }
}

// The operation, its fact as a tuple of the schema. No mapping is added here.
fn operation_in(
    alloc: Global,
    schema: &Schema,
    operation: RawOperation,
) -> Result<Operation, CaseRefusal> {
    match operation {
        RawOperation::Insert(fact) => Ok(Operation::Insert(known(alloc, schema, &fact)?)),
        RawOperation::Delete(fact) => Ok(Operation::Delete(known(alloc, schema, &fact)?)),
        RawOperation::Replace(null, value) => Ok(Operation::Replace(null, value)),
        RawOperation::Enact(_) => Err(CaseRefusal::Spelling),
    }
}

// The tuples of the facts, in their order.
fn all_known(
    alloc: Global,
    schema: &Schema,
    facts: &RawFactList,
) -> Result<TupleList, CaseRefusal> {
    let mut tuples = TupleList::new(alloc);
    for fact in facts.as_slice() {
        tuples.push(known(alloc, schema, fact)?)?;
    }
    Ok(tuples)
}

// The tuple of the fact.
fn known(alloc: Global, schema: &Schema, fact: &RawFact) -> Result<Tuple, CaseRefusal> {
    match tuple_in(alloc, schema, fact)? {
        Some(tuple) => Ok(tuple),
        None => Err(CaseRefusal::Spelling),
    }
}
