//! The lines of `violations`.

use crate::clashes::Clashes;
use crate::violating::{Lack, Told};
use base_types::Memory;
use std::alloc::{AllocError, Global};
use ws_print::{Lines, Text, add_count, add_form};
use ws_space::Space;

/// The lines for the mappings with their violations, and for the clashes of keys.
pub(crate) fn lines(
    alloc: Global,
    space: &Space,
    told: &[Told],
    clashes: &[Clashes],
    limit: usize,
) -> Result<Vec<String>, Memory> {
    let mut lines = Lines::new(alloc);
    for one in told {
        add_mapping(alloc, &mut lines, space, one);
    }
    for one in clashes {
        add_clashes(alloc, &mut lines, space, one, limit)?;
    }
    if lines.is_empty() {
        lines.push_str("no mappings");
    }
    Ok(lines.done()?)
}

fn joined(alloc: Global, texts: &[String]) -> Result<String, Memory> {
    let mut all = Text::new(alloc);
    for (place, text) in texts.iter().enumerate() {
        if 0 < place {
            all.push_str(", ");
        }
        all.push_str(text.as_str());
    }
    Ok(all.done()?)
}

fn add_mapping(alloc: Global, lines: &mut Lines, space: &Space, told: &Told) {
    let name = space.mapping_name(told.mapping);
    lines.made(mapping_line(alloc, name, told));
    for lack in told.first.iter() {
        lines.made(lack_line(alloc, lack));
    }
    if told.first.len() < told.count {
        let more = told.count.saturating_sub(told.first.len());
        lines.made(format!(in alloc; "  .. and {more} more: violations {name}"));
    }
}

fn mapping_line(alloc: Global, name: &str, told: &Told) -> Result<String, AllocError> {
    let how = if told.in_force {
        "in force"
    } else {
        "proposed"
    };
    let mut line = Text::new(alloc);
    write!(line, "{name}: {how}, ");
    if told.count == 0 {
        line.push_str("no violations");
    } else {
        add_count(&mut line, told.count, "violation");
    }
    line.done()
}

fn lack_line(alloc: Global, lack: &Lack) -> Result<String, Memory> {
    let since = joined(alloc, lack.since.as_slice())?;
    let lacks = joined(alloc, lack.lacks.as_slice())?;
    Ok(format!(in alloc; "  {since} lacks {lacks}")?)
}

fn add_clashes(
    alloc: Global,
    lines: &mut Lines,
    space: &Space,
    clashes: &Clashes,
    limit: usize,
) -> Result<(), Memory> {
    lines.made(key_line(alloc, space, clashes));
    for group in clashes.groups.iter().take(limit) {
        let group = joined(alloc, group.as_slice())?;
        lines.made(format!(in alloc; "  {group}"));
    }
    if limit < clashes.groups.len() {
        let more = clashes.groups.len().saturating_sub(limit);
        lines.made(format!(in alloc; "  .. and {more} more"));
    }
    Ok(())
}

// `key of FORM: N clashes`.
fn key_line(alloc: Global, space: &Space, clashes: &Clashes) -> Result<String, Memory> {
    let form = form_of(alloc, space, clashes)?;
    let mut line = Text::new(alloc);
    write!(line, "key of {form}: ");
    add_count(&mut line, clashes.groups.len(), "clash");
    Ok(line.done()?)
}

/// The relation with its columns.
pub(crate) fn form_of(alloc: Global, space: &Space, clashes: &Clashes) -> Result<String, Memory> {
    let mut form = Text::new(alloc);
    if let Some(relation) = space.relations.get(clashes.relation) {
        add_form(&mut form, relation);
    }
    Ok(form.done()?)
}
