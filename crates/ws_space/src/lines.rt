//! Lines and answers, from the said form to the state's form.

use crate::copies::copy_rule;
use crate::naming::{named_tuple, named_tuples};
use crate::rules::mapping_of;
use crate::sources::source_of;
use crate::spelling::update_of;
use crate::texts::bytes_of;
use base_types::{Choice, Mapping, Memory, NameList, NumberList};
use std::alloc::Global;
use ws_grammar::set_apart;
use ws_lines::{Asked, Given, Line as Numbered, Table};
use ws_written::{Answer, Choice as SaidChoice, Line, Relation, Rule, Stamp};

/// The line in the state's form; None if it names a mapping that is not there.
pub(crate) fn line_of(
    alloc: Global,
    rules: &[Rule],
    stamp: &Stamp,
    line: &Line,
) -> Result<Option<Numbered>, Memory> {
    Ok(match line {
        Line::Update(update) => match update_of(alloc, rules, stamp, update)? {
            Some(update) => Some(Numbered::Update(update)),
            None => None,
        },
        Line::Answer(number, answer) => match given_of(alloc, rules, answer)? {
            Some(given) => Some(Numbered::Answer(*number, given)),
            None => None,
        },
        Line::Go(number) => Some(Numbered::Go(*number)),
        Line::Undo(numbers) => Some(Numbered::Undo(numbers_of(alloc, numbers)?)),
        Line::UndoAnswers(numbers) => Some(Numbered::Forget(numbers_of(alloc, numbers)?)),
        Line::Redo(numbers) => Some(Numbered::Redo(numbers_of(alloc, numbers)?)),
        Line::Relation(relation) => Some(Numbered::Relation(table_of(alloc, relation)?)),
        Line::Mapping(rule) => Some(Numbered::Mapping(mapping_apart(alloc, rule)?)),
    })
}

// The mapping in the state's form, with a separate variable for each `_`.
fn mapping_apart(alloc: Global, rule: &Rule) -> Result<Mapping, Memory> {
    let rule = apart(alloc, rule)?;
    mapping_of(alloc, &rule)
}

/// A copy of the mapping with a separate variable for each `_`.
pub fn apart(alloc: Global, rule: &Rule) -> Result<Rule, Memory> {
    let mut copy = copy_rule(alloc, rule)?;
    set_apart(alloc, &mut copy)?;
    Ok(copy)
}

fn numbers_of(alloc: Global, numbers: &[u32]) -> Result<NumberList, Memory> {
    let mut list = Vec::new(alloc);
    list.extend_from_slice(numbers)?;
    Ok(NumberList::from_vec(list))
}

/// The answer in the state's form; None if its mapping is not there.
pub(crate) fn given_of(
    alloc: Global,
    rules: &[Rule],
    answer: &Answer,
) -> Result<Option<Given>, Memory> {
    let Some(source) = source_of(rules, answer.question.mapping.as_str()) else {
        return Ok(None);
    };
    Ok(Some(Given {
        choice: choice_of(alloc, &answer.choice)?,
        asked: Asked {
            source,
            tuples: named_tuples(alloc, answer.question.facts.as_slice())?,
        },
    }))
}

fn choice_of(alloc: Global, choice: &SaidChoice) -> Result<Choice, Memory> {
    Ok(match choice {
        SaidChoice::Expand => Choice::Expand,
        SaidChoice::Unify(fact) => Choice::Unify(named_tuple(alloc, fact)?),
        SaidChoice::Delete(facts) => Choice::Delete(named_tuples(alloc, facts.as_slice())?),
    })
}

/// The relation in the state's form.
pub(crate) fn table_of(alloc: Global, relation: &Relation) -> Result<Table, Memory> {
    let mut columns = NameList::new(alloc);
    let mut key = Vec::new(alloc);
    for column in &relation.columns {
        columns.push(bytes_of(alloc, column.name.as_str())?)?;
        key.push(column.key)?;
    }
    Ok(Table {
        name: bytes_of(alloc, relation.name.as_str())?,
        columns,
        key,
    })
}
