//! The columns of a relation, each with its cell in the rows of a file.

use crate::columns::place_of;
use crate::comparing::has_same;
use crate::forms::Form;
use crate::refusing::{fault, meant_of};
use std::alloc::{AllocError, Global};
use ws_fault::{Refusal, Status};
use ws_grammar::has_name;
use ws_print::{Text, add_count, add_escaped, add_form};
use ws_written::Relation;

/// A column of the relation.
#[derive(Drop)]
pub struct FittedColumn {
    pub name: String,
    /// The place of its cell in a row.
    pub place: usize,
    /// Whether it holds texts alone.
    pub as_text: bool,
}

/// The names of a relation's columns.
pub(crate) fn column_names(alloc: Global, relation: &Relation) -> Result<Vec<String>, AllocError> {
    let mut names = Vec::new(alloc);
    for column in relation.columns.iter() {
        names.push(String::from_str(alloc, column.name.as_str())?)?;
    }
    Ok(names)
}

/// The relation's columns with their places in a row.
pub(crate) fn fitted_columns(
    alloc: Global,
    form: &Form,
    path: &str,
    line: u64,
    relation: &Relation,
    header: &Vec<String>,
) -> Result<Vec<FittedColumn>, Refusal> {
    let names = column_names(alloc, relation)?;
    has_texts(alloc, form, relation, names.as_slice())?;
    let taken = match &form.columns {
        Some(chosen) => {
            has_count(alloc, relation, chosen.len())?;
            chosen.as_slice()
        }
        None => {
            has_same(
                alloc,
                path,
                line,
                relation,
                header.as_slice(),
                names.as_slice(),
            )?;
            names.as_slice()
        }
    };
    placed(alloc, form, names.as_slice(), taken, header.as_slice())
}

// The columns; each one's cell is found by the name taken for it.
fn placed(
    alloc: Global,
    form: &Form,
    names: &[String],
    taken: &[String],
    header: &[String],
) -> Result<Vec<FittedColumn>, Refusal> {
    let mut columns = Vec::new(alloc);
    for (place, name) in names.iter().enumerate() {
        let Some(cell) = taken.get(place) else {
            break;
        };
        columns.push(FittedColumn {
            name: String::from_str(alloc, name.as_str())?,
            place: place_of(header, cell.as_str()).unwrap_or(0),
            as_text: has_name(form.texts.as_slice(), name.as_str()),
        })?;
    }
    Ok(columns)
}

// Refuses the file unless each column that `--text` names is one of the relation.
fn has_texts(
    alloc: Global,
    form: &Form,
    relation: &Relation,
    names: &[String],
) -> Result<(), Refusal> {
    for text in form.texts.iter() {
        if !text.is_empty() && !has_name(names, text.as_str()) {
            let name = relation.name.as_str();
            let mut words = Text::new(alloc);
            write!(words, "{name} has no column ");
            add_escaped(&mut words, text.as_str());
            let words = words.done()?;
            let hint = meant_of(alloc, text.as_str(), names)?;
            return fault(alloc, Status::Refused, words, hint);
        }
    }
    Ok(())
}

// Refuses the file unless `--columns` names as many columns as the relation has.
fn has_count(alloc: Global, relation: &Relation, count: usize) -> Result<(), Refusal> {
    if relation.columns.len() == count {
        return Ok(());
    }
    let name = relation.name.as_str();
    let mut words = Text::new(alloc);
    write!(words, "{name} has ");
    add_count(&mut words, relation.columns.len(), "column");
    write!(words, ", --columns names {count}");
    let words = words.done()?;
    let mut hint = Text::from_str(alloc, "it is ");
    add_form(&mut hint, relation);
    let hint = hint.done()?;
    fault(alloc, Status::Refused, words, Some(hint))
}
