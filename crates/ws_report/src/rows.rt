//! The lines for what came, what went and what was filled.

use crate::reports::{Report, Telling};
use crate::words::named_text;
use base_types::Value;
use def_memory::Memory;
use std::alloc::Global;
use ws_print::{Lines, Text};
use ws_question::{count_text, fact_text};
use ws_space::Space;
use ws_state::{Effect, Filled, Moved};

/// The greatest number of tuples that lines list.
pub const MANY: usize = 20;

/// `SIGN FACT`, and after it `   by MAPPING` if a mapping caused the move and is to be printed.
pub fn moved_row(
    alloc: Global,
    space: &Space,
    sign: &str,
    moved: &Moved,
    with_mapping: bool,
) -> Result<String, Memory> {
    let fact = fact_text(alloc, space, &moved.tuple)?;
    let fact = fact.as_str();
    let mut row = Text::new(alloc);
    write!(row, "{sign} {fact}");
    if let Some(number) = moved.by {
        if with_mapping {
            row.push_str("   by ");
            row.push_str(space.mapping_name(number));
        }
    }
    Ok(row.done()?)
}

// `= ?U.P is VALUE, in K tuples`.
fn filled_row(alloc: Global, space: &Space, filled: &Filled) -> Result<String, Memory> {
    let name = named_text(alloc, space, &Value::Null(filled.name))?;
    let value = named_text(alloc, space, &filled.value)?;
    let count = count_text(alloc, filled.tuples as usize, "tuple")?;
    Ok(format!(in alloc; "= {name} is {value}, in {count}")?)
}

fn add_moved(
    alloc: Global,
    space: &Space,
    rows: &mut Lines,
    sign: &str,
    moved: &[Moved],
    with_mapping: bool,
) {
    let room = MANY.saturating_sub(rows.len());
    for one in moved.iter().take(room) {
        rows.made(moved_row(alloc, space, sign, one, with_mapping));
    }
}

fn add_filled(alloc: Global, space: &Space, rows: &mut Lines, filled: &[Filled]) {
    let room = MANY.saturating_sub(rows.len());
    for one in filled.iter().take(room) {
        rows.made(filled_row(alloc, space, one));
    }
}

// `.. and K more: A tuples came, B tuples went in all`.
fn more_row(alloc: Global, effect: &Effect, more: usize) -> Result<String, Memory> {
    let came = count_text(alloc, effect.came.len(), "tuple")?;
    let went = count_text(alloc, effect.went.len(), "tuple")?;
    Ok(format!(in alloc; ".. and {more} more: {came} came, {went} went in all")?)
}

fn whole_rows(alloc: Global, space: &Space, effect: &Effect) -> Result<Vec<String>, Memory> {
    let mut rows = Lines::new(alloc);
    add_moved(alloc, space, &mut rows, "+", effect.came.as_slice(), true);
    add_moved(alloc, space, &mut rows, "-", effect.went.as_slice(), true);
    add_filled(alloc, space, &mut rows, effect.filled.as_slice());
    let moved = effect.came.len().saturating_add(effect.went.len());
    let more = moved
        .saturating_add(effect.filled.len())
        .saturating_sub(MANY);
    if 0 < more {
        rows.made(more_row(alloc, effect, more));
    }
    if 0 < effect.merged {
        let merged = count_text(alloc, effect.merged as usize, "tuple")?;
        rows.made(format!(in alloc; "{merged} became one with another"));
    }
    Ok(rows.done()?)
}

fn brief_rows(alloc: Global, space: &Space, effect: &Effect) -> Result<Vec<String>, Memory> {
    let mut rows = Lines::new(alloc);
    add_moved(alloc, space, &mut rows, "+", effect.came.as_slice(), false);
    add_moved(alloc, space, &mut rows, "-", effect.went.as_slice(), false);
    let moved = effect.came.len().saturating_add(effect.went.len());
    let more = moved.saturating_sub(MANY);
    if 0 < more {
        rows.made(format!(in alloc; ".. and {more} more"));
    }
    Ok(rows.done()?)
}

/// The lines for what came, what went and what was filled.
pub(crate) fn effect_rows(
    alloc: Global,
    space: &Space,
    report: &Report,
) -> Result<Vec<String>, Memory> {
    match report.telling {
        Telling::Whole => whole_rows(alloc, space, &report.effect),
        Telling::Brief => brief_rows(alloc, space, &report.effect),
        Telling::Untold => Ok(Vec::new(alloc)),
    }
}
