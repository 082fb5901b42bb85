//! `export`: one relation or all, in one of three forms.

use crate::csv::csv_lines;
use crate::row_objects::add_objects;
use crate::sql::sql_lines;
use crate::texts::relation_at;
use std::alloc::{AllocError, Global};
use ws_command::Export;
use ws_fault::{Fault, Refusal, Status};
use ws_print::Lines;
use ws_space::Space;

/// The word for the export's text in a reply.
pub fn export_word(export: &Export) -> &'static str {
    if export.sql {
        return "sql";
    }
    if export.json { "rows" } else { "csv" }
}

/// The lines of the export; a database is made of the SQL lines. More than one form is refused, and so are comma-separated values
/// of more than one relation.
pub fn export(alloc: Global, space: &Space, export: &Export) -> Result<Vec<String>, Refusal> {
    if is_torn(export) {
        let words = "one of --csv, --sql and --json";
        let hint = if export.sqlite.is_some() {
            Some("or --sqlite FILE alone")
        } else {
            None
        };
        return refused(alloc, Status::Unread, words, hint);
    }
    let relations = relations_of(alloc, space, export)?;
    if export.sql || export.sqlite.is_some() {
        return sql_lines(alloc, space, relations.as_slice());
    }
    if export.json {
        return object_lines(alloc, space, relations.as_slice());
    }
    match relations.as_slice() {
        [relation] => csv_lines(alloc, space, *relation),
        _ => refused(
            alloc,
            Status::Refused,
            "csv has one table: export RELATION",
            Some("or export --sql, export --json"),
        ),
    }
}

// Whether more than one form is named, or a database is to be written together with another form or file.
fn is_torn(export: &Export) -> bool {
    if export.sqlite.is_some() {
        return export.csv || export.sql || export.json || export.to.is_some();
    }
    (export.csv && (export.sql || export.json)) || (export.sql && export.json)
}

fn relations_of(alloc: Global, space: &Space, export: &Export) -> Result<Vec<u32>, AllocError> {
    let mut relations = Vec::new(alloc);
    match export.relation {
        Some(relation) => relations.push(relation)?,
        None => {
            for place in 0..space.relations.len() {
                relations.push(relation_at(place))?;
            }
        }
    }
    Ok(relations)
}

fn object_lines(alloc: Global, space: &Space, relations: &[u32]) -> Result<Vec<String>, Refusal> {
    let mut lines = Lines::new(alloc);
    for relation in relations {
        add_objects(alloc, &mut lines, space, *relation)?;
    }
    Ok(lines.done()?)
}

fn refused(
    alloc: Global,
    status: Status,
    words: &str,
    hint: Option<&str>,
) -> Result<Vec<String>, Refusal> {
    Err(Refusal::Fault(Fault {
        status,
        words: String::from_str(alloc, words)?,
        place: None,
        hint: match hint {
            Some(hint) => Some(String::from_str(alloc, hint)?),
            None => None,
        },
        more: Vec::new(alloc),
    }))
}
