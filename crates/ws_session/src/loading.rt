//! The rows of a `load`: from a file, or from standard input.

use crate::failing::{cannot, fault};
use crate::sessions::{Settings, called};
use std::alloc::Global;
use std::fs;
use ws_cells::form_of;
use ws_command::{Load, Source};
use ws_fault::{Refusal, Status};
use ws_load::{Input, Rows, load as loaded_over, read};
use ws_print::{Text, add_count};
use ws_reply::{Context, Outcome};
use ws_space::Space;

/// The part of standard input that belongs to a line, and its number of lines; 0 if all of the input belongs to it.
#[derive(Drop)]
pub struct Fed {
    pub bytes: Vec<u8>,
    pub lines: u64,
}

const INPUT: &str = "standard input";

/// Does a `load` over the workspace in memory. The bytes of a file are dropped before its rows are inserted.
pub(crate) fn loaded(
    rt: &HostRuntime,
    settings: &Settings,
    space: &mut Space,
    context: &Context<'_>,
    load: &Load,
    fed: Option<&Fed>,
) -> Result<Outcome, Refusal> {
    let rows = rows_of(rt, settings, space, load, fed)?;
    loaded_over(rt.alloc(), space, context, load, rows)
}

// The rows of the file, or of standard input.
fn rows_of(
    rt: &HostRuntime,
    settings: &Settings,
    space: &Space,
    load: &Load,
    fed: Option<&Fed>,
) -> Result<Rows, Refusal> {
    let alloc = rt.alloc();
    let _ = form_of(alloc, load)?;
    if let Some(path) = file_of(load) {
        let name = called(settings, path);
        match fs::read(rt, path) {
            Ok(bytes) => {
                let input = Input {
                    path: name,
                    bytes: bytes.as_slice(),
                };
                return read(alloc, space, load, input);
            }
            Err(error) => return Err(cannot(alloc, Status::NoInput, "read", name, &error)),
        }
    }
    let fed = fed_for(alloc, load, fed)?;
    let input = Input {
        path: INPUT,
        bytes: fed.bytes.as_slice(),
    };
    read(alloc, space, load, input)
}

// The path of the file with the rows; None if they are in standard input.
fn file_of(load: &Load) -> Option<&str> {
    match &load.source {
        Source::File(path) if path.as_str() != "-" => Some(path.as_str()),
        _ => None,
    }
}

// The part of standard input with the rows. It is refused if there is none, or if it has too few lines.
fn fed_for<'a>(alloc: Global, load: &Load, fed: Option<&'a Fed>) -> Result<&'a Fed, Refusal> {
    let Some(fed) = fed else {
        let name = load.relation.as_str();
        let words = String::from_str(alloc, "standard input has the commands")?;
        let hint = format!(in alloc; "load {name} --lines N")?;
        return Err(Refusal::Fault(fault(alloc, Status::Unread, words, Some(hint))));
    };
    if let Source::Lines(wanted) = &load.source {
        let count = fed.lines;
        if count < u64::from(*wanted) {
            let mut words = Text::new(alloc);
            write!(words, "standard input ended after {count} of ");
            add_count(&mut words, *wanted as usize, "line");
            let words = words.done()?;
            return Err(Refusal::Fault(fault(alloc, Status::Unread, words, None)));
        }
    }
    Ok(fed)
}
