//! The relation that is declared for a file.

use crate::columns::made_name;
use crate::forms::Form;
use crate::refusing::fault;
use std::alloc::{AllocError, Global};
use ws_command::Load;
use ws_fault::{Nearest, Refusal, Status};
use ws_grammar::read_relation;
use ws_print::Text;
use ws_written::Relation;

// The columns that are taken as a relation, in the form that the command `relation` takes.
fn declaration(
    alloc: Global,
    load: &Load,
    form: &Form,
    header: &[String],
) -> Result<String, AllocError> {
    let name = load.relation.as_str();
    let mut line = Text::new(alloc);
    write!(line, "{name}(");
    let taken = match &form.columns {
        Some(chosen) => chosen.as_slice(),
        None => header,
    };
    for (place, column) in taken.iter().enumerate() {
        line.push_str(if 0 < place { ", " } else { "" });
        line.made(made_name(alloc, column.as_str()));
    }
    line.push(')');
    line.done()
}

fn nearest_relation(
    alloc: Global,
    relations: &[Relation],
    name: &str,
) -> Result<Option<String>, AllocError> {
    let mut nearest = Nearest::to(alloc, name)?;
    for relation in relations {
        nearest.consider(relation.name.as_str())?;
    }
    nearest.question()
}

// The refusal: no relation has this name, and none is to be created.
fn no_relation<T>(
    alloc: Global,
    relations: &[Relation],
    name: &str,
    line: Option<String>,
) -> Result<T, Refusal> {
    let words = format!(in alloc; "there is no relation {name}")?;
    let mut hint = nearest_relation(alloc, relations, name)?;
    if hint.is_none() {
        if let Some(line) = line {
            hint = Some(format!(in alloc; "make it: relation {line}, or load it with --create")?);
        }
    }
    fault(alloc, Status::Refused, words, hint)
}

/// The relation created for a file with these columns. It is refused unless `load` asks for its creation.
pub(crate) fn created(
    alloc: Global,
    load: &Load,
    form: &Form,
    relations: &[Relation],
    header: &[String],
) -> Result<Relation, Refusal> {
    let name = load.relation.as_str();
    let line = declaration(alloc, load, form, header)?;
    if !load.create {
        return no_relation(alloc, relations, name, Some(line));
    }
    let relation = declared(alloc, line.as_str())?;
    if is_declared(relations, name) {
        return no_relation(alloc, relations, name, None);
    }
    Ok(relation)
}

// Whether a relation has this name, ignoring capitals.
fn is_declared(relations: &[Relation], name: &str) -> bool {
    for relation in relations {
        if relation.name.as_str().eq_ignore_ascii_case(name) {
            return true;
        }
    }
    false
}

// The relation that a line declares. A fault of the line has no place, because no curator wrote the line.
fn declared(alloc: Global, line: &str) -> Result<Relation, Refusal> {
    match read_relation(alloc, line) {
        Err(Refusal::Fault(mut fault)) => {
            fault.place = None;
            Err(Refusal::Fault(fault))
        }
        other => other,
    }
}
