//! The unknowns of a page, each with the tuples that have it.

use crate::pages::Document;
use crate::texts::relation_at;
use base_types::{Memory, Tuple, Value};
use std::alloc::{AllocError, Global};
use std::collections::BTreeMap;
use ws_print::{Text, add_unknown};
use ws_question::inner_text;
use ws_space::{Space, has_unknown, unknown_of};
use ws_written::Unknown;

// The greatest number of tuples that are listed for an unknown.
const MOST: usize = 20;

const HEADER: &str = "<table><tr><th scope=\"col\">Unknown</th><th scope=\"col\">Stands in</th>\
                      <th scope=\"col\">Command</th></tr>";

/// The unknowns in tuples, each with the first tuples that have it, in the form that commands take.
pub(crate) type Unknowns = BTreeMap<Unknown, Vec<String>>;

/// The unknowns of all relations.
pub(crate) fn unknowns_of(alloc: Global, space: &Space) -> Result<Unknowns, Memory> {
    let mut unknowns = BTreeMap::new(alloc);
    for place in 0..space.relations.len() {
        let rows = space.rows(alloc, relation_at(place))?;
        add_rows(alloc, &mut unknowns, space, rows.as_slice())?;
    }
    Ok(unknowns)
}

fn add_rows(
    alloc: Global,
    unknowns: &mut Unknowns,
    space: &Space,
    rows: &[Tuple],
) -> Result<(), Memory> {
    for tuple in rows {
        if has_unknown(tuple) {
            add_tuple(alloc, unknowns, space, tuple)?;
        }
    }
    Ok(())
}

// Adds a tuple to each of its unknowns, once.
fn add_tuple(
    alloc: Global,
    unknowns: &mut Unknowns,
    space: &Space,
    tuple: &Tuple,
) -> Result<(), Memory> {
    let text = inner_text(alloc, space, tuple)?;
    for (place, value) in tuple.values.as_slice().iter().enumerate() {
        if let Value::Null(null) = value {
            if !stands_before(tuple, place, value) {
                let unknown = unknown_of(space.state.names().name_of(*null));
                add_text(alloc, unknowns, unknown, text.as_str())?;
            }
        }
    }
    Ok(())
}

// Whether an earlier place of the tuple has the value too.
fn stands_before(tuple: &Tuple, place: usize, value: &Value) -> bool {
    for other in tuple.values.as_slice().iter().take(place) {
        if other == value {
            return true;
        }
    }
    false
}

fn add_text(
    alloc: Global,
    unknowns: &mut Unknowns,
    unknown: Unknown,
    text: &str,
) -> Result<(), AllocError> {
    if let Some(texts) = unknowns.get_mut(&unknown) {
        if texts.len() < MOST {
            texts.push(String::from_str(alloc, text)?)?;
        }
        return Ok(());
    }
    let mut texts = Vec::new(alloc);
    texts.push(String::from_str(alloc, text)?)?;
    unknowns.insert(unknown, texts)?;
    Ok(())
}

/// Adds the unknowns.
pub(crate) fn add_unknowns(document: &mut Document, unknowns: &Unknowns) {
    document.say("<h2 id=\"unknowns\">Unknowns</h2>");
    if unknowns.is_empty() {
        return document.say("<p>None.</p>");
    }
    document.say(HEADER);
    for (unknown, texts) in unknowns {
        let row = row_of(document, *unknown, texts.as_slice());
        document.made(row);
    }
    document.say("</table>");
}

fn row_of(document: &Document, unknown: Unknown, texts: &[String]) -> Result<String, AllocError> {
    let mut line = Text::from_str(document.alloc, "<tr><td class=\"u\">");
    add_unknown(&mut line, unknown);
    line.push_str("</td><td>");
    for (place, text) in texts.iter().enumerate() {
        line.push_str(if 0 < place { "<br>" } else { "" });
        line.made(document.code(text.as_str()));
    }
    line.push_str("</td><td><code>replace ");
    add_unknown(&mut line, unknown);
    line.push_str(" with VALUE</code></td></tr>");
    line.done()
}
