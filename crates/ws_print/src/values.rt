//! Values.

use crate::escapes::add_quoted;
use crate::texts::Text;
use std::fmt::Write;
use ws_written::{NewValue, Unknown, Value};

/// Adds `?U.P`.
pub fn add_unknown(out: &mut Text, unknown: Unknown) {
    let update = unknown.update;
    let place = unknown.place;
    write!(out, "?{update}.{place}")
}

/// Adds a number, a text in quotes, or an unknown.
pub fn add_value(out: &mut Text, value: &Value) {
    match value {
        Value::Number(number) => write!(out, "{number}"),
        Value::Text(text) => add_quoted(out, text.as_str()),
        Value::Unknown(unknown) => add_unknown(out, *unknown),
        Value::Strange(name) => {
            out.push('?');
            out.push_str(name.as_str())
        }
    }
}

/// Adds a value, or a new unknown, `?` or `?x`.
pub fn add_new_value(out: &mut Text, value: &NewValue) {
    match value {
        NewValue::Known(known) => add_value(out, known),
        NewValue::Fresh => out.push('?'),
        NewValue::Named(name) => {
            out.push('?');
            out.push_str(name.as_str())
        }
    }
}

/// Adds values, with commas between them.
pub(crate) fn add_values(out: &mut Text, values: &[Value]) {
    for (place, value) in values.iter().enumerate() {
        add_comma(out, place);
        add_value(out, value);
    }
}

/// Adds the comma in front of the item at this place of a list; nothing at the first place.
pub(crate) fn add_comma(out: &mut Text, place: usize) {
    if 0 < place {
        return out.push_str(", ");
    }
}
