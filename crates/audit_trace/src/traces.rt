//! The lines of a trace.
ghost use Rattle.std.specs.Prelude.{◌≡◌, ◌++◌, ◌∷◌, [], codes, length, map, flat_map, IfOk, OnOk};
ghost use Rattle.std.specs.Fmt.{decimal};
ghost use Rattle.core_entries.specs.Meanings.{entry_of};
ghost use Rattle.audit_trace.specs.Traces.{entry_line as line_of_entry, trace_text as text_of_trace};

use crate::entries::with_entry;
use base_json::Line;
use core_entries::Entry;
use def_memory::Memory;
use itoa::Buffer;
use lang_schema::Schema;
use std::alloc::Global;

// The text with the line of one more entry.
fn with_line(
    alloc: Global,
    text: Vec<u8>,
    schema: &Schema,
    entry: &Entry,
) -> Result<Vec<u8>, Memory>
    ensures { IfOk result (λ more.
        more.items ≡ text.items ++ line_of_entry schema.now (entry_of entry.now)) }
{
    let mut more = with_entry(alloc, Line::after(text), schema, entry)?.into_text();
    more.push(b'\n')?;
    Ok(more)
}

/// The line of an entry, with its line feed.
pub fn entry_line(alloc: Global, schema: &Schema, entry: &Entry) -> Result<Vec<u8>, Memory>
    ensures line { IfOk result (λ line.
        line.items ≡ line_of_entry schema.now (entry_of entry.now)) }
{
    with_line(alloc, Vec::new(alloc), schema, entry)
}

// The first line, which counts the entries.
fn head(alloc: Global, count: usize) -> Result<Vec<u8>, Memory>
    ensures { IfOk result (λ text. text.items ≡ codes "trace " ++ (decimal count ++ 10 ∷ [])) }
{
    let mut text = Vec::new(alloc);
    text.extend_from_slice(b"trace ")?;
    let mut digits = Buffer::new();
    text.extend_from_slice(digits.format(count as u64).as_bytes())?;
    text.push(b'\n')?;
    Ok(text)
}

fn with_lines(
    alloc: Global,
    mut text: Vec<u8>,
    schema: &Schema,
    history: &[Entry],
) -> Result<Vec<u8>, Memory>
    ensures { IfOk result (λ more.
        more.items ≡ text.items ++ flat_map (line_of_entry schema.now) (map entry_of history.now)) }
{
    for entry in history {
        text = with_line(alloc, text, schema, entry)?;
    }
    Ok(text)
}

/// The text of a trace: `trace N`, and the lines of the N entries.
pub fn trace_text(alloc: Global, schema: &Schema, history: &[Entry]) -> Result<Vec<u8>, Memory>
    ensures text { IfOk result (λ text.
        text.items ≡ text_of_trace schema.now (map entry_of history.now)) }
{
    let text = head(alloc, history.len())?;
    with_lines(alloc, text, schema, history)
}
