//! The first line of a file, compared with the relation that the file is for.

use crate::columns::header_of;
use crate::creating::created;
use crate::forms::Form;
use crate::matching::{FittedColumn, column_names, fitted_columns};
use crate::readers::CsvRow;
use crate::refusing::{add_names, fault, meant_of};
use std::alloc::{AllocError, Global};
use ws_command::Load;
use ws_fault::{Refusal, Status};
use ws_grammar::{has_name, place_of};
use ws_print::{Text, add_escaped};
use ws_written::Relation;

/// How the cells of a row become a tuple.
#[derive(Drop)]
pub struct Fitted {
    /// The relation that must be declared first, if it is not there.
    pub created: Option<Relation>,
    /// The number of the relation.
    pub relation: u32,
    /// The number of cells in a row.
    pub width: usize,
    /// The columns of the relation, in order.
    pub columns: Vec<FittedColumn>,
}

/// How the rows after the first line become tuples of the relation of `load`, which is there or is to be created. A file that
/// does not fit is refused; `path` is the file as the curator gave it.
pub fn fit(
    alloc: Global,
    load: &Load,
    form: &Form,
    relations: &[Relation],
    path: &str,
    first: &CsvRow,
) -> Result<Fitted, Refusal> {
    let header = header_of(alloc, first.cells.as_slice())?;
    has_chosen(alloc, form, path, header.as_slice())?;
    let name = load.relation.as_str();
    if let Some(number) = place_of(relations, name) {
        if let Some(relation) = relations.get(number) {
            let columns = fitted_columns(alloc, form, path, first.line, relation, &header)?;
            return Ok(Fitted {
                created: None,
                relation: u32::try_from(number).unwrap_or(u32::MAX),
                width: header.len(),
                columns,
            });
        }
    }
    fit_created(alloc, load, form, relations, path, first.line, header)
}

fn fit_created(
    alloc: Global,
    load: &Load,
    form: &Form,
    relations: &[Relation],
    path: &str,
    line: u64,
    header: Vec<String>,
) -> Result<Fitted, Refusal> {
    let relation = created(alloc, load, form, relations, header.as_slice())?;
    let width = header.len();
    let header = match form.columns {
        Some(_) => header,
        None => column_names(alloc, &relation)?,
    };
    let columns = fitted_columns(alloc, form, path, line, &relation, &header)?;
    Ok(Fitted {
        created: Some(relation),
        relation: u32::try_from(relations.len()).unwrap_or(u32::MAX),
        width,
        columns,
    })
}

// Refuses the file unless it has each column that `--columns` names.
fn has_chosen(alloc: Global, form: &Form, path: &str, header: &[String]) -> Result<(), Refusal> {
    let Some(chosen) = &form.columns else {
        return Ok(());
    };
    for name in chosen.iter() {
        if !has_name(header, name.as_str()) {
            return no_column(alloc, path, name.as_str(), header);
        }
    }
    Ok(())
}

fn no_column(alloc: Global, path: &str, name: &str, header: &[String]) -> Result<(), Refusal> {
    let mut words = Text::new(alloc);
    write!(words, "{path} has no column ");
    add_escaped(&mut words, name);
    let words = words.done()?;
    let hint = meant_or_known(alloc, name, header)?;
    fault(alloc, Status::Refused, words, Some(hint))
}

// A hint: asks whether one of the names was meant if one is near, else lists all.
fn meant_or_known(alloc: Global, name: &str, names: &[String]) -> Result<String, AllocError> {
    let mut hint = Text::new(alloc);
    match meant_of(alloc, name, names)? {
        Some(question) => add_escaped(&mut hint, question.as_str()),
        None => {
            hint.push_str("it has ");
            add_names(&mut hint, names);
        }
    }
    hint.done()
}
