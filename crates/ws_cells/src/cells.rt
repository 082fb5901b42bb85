//! What a cell stands for.

use std::alloc::{AllocError, Global};
use ws_written::{Unknown, Value};

// Whether the digits are a number in printed form: `0`, or no zero in front.
fn is_printed(digits: &str) -> bool {
    match digits.as_bytes() {
        [] => false,
        [b'0', ..] => false,
        _ => are_digits(digits),
    }
}

/// The number whose printed form is the cell; None if there is none.
pub(crate) fn number_of(cell: &str) -> Option<i64> {
    if cell == "0" {
        return Some(0);
    }
    if !is_printed(cell.strip_prefix("-").unwrap_or(cell)) {
        return None;
    }
    cell.parse::<i64>().ok()
}

/// The two numbers of a cell `?U.P`, as they are written; None if the cell has another form.
pub(crate) fn unknown_parts(cell: &str) -> Option<(&str, &str)> {
    let (update, place) = cell.strip_prefix("?")?.split_once('.')?;
    if are_digits(update) && are_digits(place) {
        return Some((update, place));
    }
    None
}

fn are_digits(text: &str) -> bool {
    for byte in text.as_bytes() {
        if !byte.is_ascii_digit() {
            return false;
        }
    }
    !text.is_empty()
}

/// The unknown of a cell `?U.P`, if it is in `standing`, which is in order.
pub(crate) fn unknown_of(parts: (&str, &str), standing: &[Unknown]) -> Option<Unknown> {
    let update = parts.0.parse::<u32>().ok()?;
    let place = parts.1.parse::<u32>().ok()?;
    let unknown = Unknown { update, place };
    standing.binary_search(&unknown).ok()?;
    Some(unknown)
}

/// The value of a cell: a number if the cell is in its printed form and the column does not hold texts alone; else a text.
pub(crate) fn value_of(alloc: Global, cell: &str, as_text: bool) -> Result<Value, AllocError> {
    if !as_text {
        if let Some(number) = number_of(cell) {
            return Ok(Value::Number(number));
        }
    }
    Ok(Value::Text(String::from_str(alloc, cell)?))
}
