//! The columns of a file compared with the columns of the relation.

use crate::columns::has_twice;
use crate::refusing::{add_names, faults, meant_of};
use std::alloc::{AllocError, Global};
use ws_fault::Refusal;
use ws_grammar::has_name;
use ws_print::{Lines, Text, add_form, add_quoted};
use ws_written::Relation;

/// Refuses the file unless its first line names each column of the relation, and names it once.
pub(crate) fn has_same(
    alloc: Global,
    path: &str,
    line: u64,
    relation: &Relation,
    header: &[String],
    names: &[String],
) -> Result<(), Refusal> {
    let mut more = Lines::new(alloc);
    add_strangers(alloc, &mut more, line, header, names)?;
    add_missing(alloc, &mut more, line, header, names)?;
    if has_twice(header) {
        more.made(format!(in alloc; "line {line}: a column stands twice"));
    }
    let more = more.done()?;
    if more.is_empty() {
        return Ok(());
    }
    let mut words = Text::new(alloc);
    write!(words, "{path} does not fit ");
    add_form(&mut words, relation);
    let words = words.done()?;
    let hint = String::from_str(alloc, "its first line names the columns")?;
    faults(words, Some(hint), more)
}

// Adds a fault for each column of the file that the relation does not have.
fn add_strangers(
    alloc: Global,
    more: &mut Lines,
    line: u64,
    header: &[String],
    names: &[String],
) -> Result<(), AllocError> {
    for column in header {
        if has_name(names, column.as_str()) {
            continue;
        }
        let mut words = Text::new(alloc);
        write!(words, "line {line}: there is no column ");
        add_quoted(&mut words, column.as_str());
        if let Some(question) = meant_of(alloc, column.as_str(), names)? {
            words.push_str("; ");
            words.push_str(question.as_str());
        }
        let words = words.done()?;
        more.push(words);
    }
    Ok(())
}

// Adds a fault that lists the relation's columns that the file does not have.
fn add_missing(
    alloc: Global,
    more: &mut Lines,
    line: u64,
    header: &[String],
    names: &[String],
) -> Result<(), AllocError> {
    let mut missing = Vec::new(alloc);
    for name in names {
        if !has_name(header, name.as_str()) {
            missing.push(String::from_str(alloc, name.as_str())?)?;
        }
    }
    if missing.is_empty() {
        return Ok(());
    }
    let one = missing.len() == 1;
    let noun = if one { "column" } else { "columns" };
    let mut words = Text::new(alloc);
    write!(words, "line {line}: {noun} ");
    add_names(&mut words, missing.as_slice());
    words.push_str(if one { " is missing" } else { " are missing" });
    let words = words.done()?;
    more.push(words);
    Ok(())
}
