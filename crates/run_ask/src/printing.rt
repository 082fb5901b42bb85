//! Answers to queries as users see them.

ghost use Rattle.std.specs.Prelude.{◌≡◌, ◌++◌, IfOk, OnOk, flat_map, map};
ghost use Rattle.run_ask.specs.Asks.{row_of, rows_of};
ghost use Rattle.run_ask.specs.Printed.{answers_text, row_line};

use crate::queries::RowList;
use base_types::{Memory, Row};
use lang_schema::push_values;
use std::alloc::{AllocError, Global};

// Adds a row on a line of its own.
fn push_row(out: &mut Vec<u8>, row: &Row) -> Result<(), AllocError>
    ensures { OnOk result (out.new.items ≡ out.old.items ++ row_line (row_of row.now)) }
{
    out.push(b'(')?;
    push_values(out, false, row.as_slice())?;
    out.extend_from_slice(b")\n")
}

// Adds rows, each on a line of its own.
fn push_rows(out: &mut Vec<u8>, rows: &[Row]) -> Result<(), AllocError>
    ensures { OnOk result
        (out.new.items ≡ out.old.items ++ flat_map row_line (map row_of rows.now)) }
{
    for row in rows {
        push_row(out, row)?;
    }
    Ok(())
}

/// The text of answers: a line that says that they follow, and then each row on a line of its own.
pub fn answers_text(alloc: Global, rows: &RowList) -> Result<Vec<u8>, Memory>
    ensures text { IfOk result (λ text. text.items ≡ answers_text (rows_of rows.now)) }
{
    let mut text = Vec::new(alloc);
    text.extend_from_slice(b"youtopia answers 1\n")?;
    push_rows(&mut text, rows.as_slice())?;
    Ok(text)
}
