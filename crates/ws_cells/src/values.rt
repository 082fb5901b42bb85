//! The value of a cell in a column, or what is wrong with it.

use crate::cells::{unknown_of, unknown_parts, value_of};
use crate::forms::{Empty, Form};
use crate::matching::FittedColumn;
use std::alloc::{AllocError, Global};
use ws_print::{Text, add_escaped};
use ws_written::{NewValue, Unknown, Value};

/// The greatest number of bytes in a text.
const MOST: usize = 256;

/// A value, or what is wrong with its cell.
#[derive(Drop)]
pub(crate) enum Read {
    Value(NewValue),
    Wrong(String),
}

/// The value of a cell, which is empty if it counts as such. The unknowns in `standing` are in order.
pub(crate) fn read_cell(
    alloc: Global,
    form: &Form,
    standing: &[Unknown],
    column: &FittedColumn,
    cell: &str,
) -> Result<Read, AllocError> {
    let name = column.name.as_str();
    if cell.is_empty() && form.empty == Empty::New {
        return Ok(Read::Value(NewValue::Fresh));
    }
    if cell.is_empty() && form.empty == Empty::Refuse {
        let what = "is empty; --empty new makes it a new unknown";
        return Ok(Read::Wrong(format!(in alloc; "{name} {what}")?));
    }
    if cell.contains('\0') {
        return Ok(Read::Wrong(format!(in alloc; "{name} has a zero byte")?));
    }
    let bytes = cell.len();
    if MOST < bytes {
        let what = format!(in alloc; "{name} has {bytes} bytes, a text 256 at most")?;
        return Ok(Read::Wrong(what));
    }
    read_short(alloc, form, standing, column, cell)
}

// The value of a cell of at most 256 bytes.
fn read_short(
    alloc: Global,
    form: &Form,
    standing: &[Unknown],
    column: &FittedColumn,
    cell: &str,
) -> Result<Read, AllocError> {
    if form.unknowns {
        if let Some(parts) = unknown_parts(cell) {
            return match unknown_of(parts, standing) {
                Some(unknown) => Ok(Read::Value(NewValue::Known(Value::Unknown(unknown)))),
                None => no_unknown(alloc, cell),
            };
        }
    }
    let value = value_of(alloc, cell, column.as_text)?;
    Ok(Read::Value(NewValue::Known(value)))
}

fn no_unknown(alloc: Global, cell: &str) -> Result<Read, AllocError> {
    let mut what = Text::from_str(alloc, "there is no unknown ");
    add_escaped(&mut what, cell);
    let what = what.done()?;
    Ok(Read::Wrong(what))
}
