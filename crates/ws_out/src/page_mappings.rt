//! The mappings of a page: their picture, and their printed forms.

use crate::graphs::{is_open, links_of, mappings_of};
use crate::pages::Document;
use base_types::Memory;
use std::alloc::{AllocError, Global};
use ws_draw::svg_of;
use ws_space::Space;

/// Adds the mappings.
pub(crate) fn add_mappings(document: &mut Document, space: &Space) -> Result<(), Memory> {
    document.say("<h2 id=\"mappings\">Mappings</h2>");
    let mappings = mappings_of(document.alloc, space)?;
    if mappings.is_empty() {
        document.say("<p>None.</p>");
        return Ok(());
    }
    document.made(picture(document.alloc, space));
    for mapping in mappings.iter() {
        add_mapping(document, space, *mapping)?;
    }
    document.say("</ul>");
    Ok(())
}

fn picture(alloc: Global, space: &Space) -> Result<String, AllocError> {
    let links = links_of(alloc, space)?;
    let svg = svg_of(alloc, space.relations.as_slice(), links.as_slice())?;
    format!(in alloc; "<div class=\"wide\">{svg}</div><ul>")
}

fn add_mapping(document: &mut Document, space: &Space, mapping: u16) -> Result<(), Memory> {
    let alloc = document.alloc;
    let code = document.code(space.rule_text(alloc, mapping)?.as_str())?;
    let state = state_text(alloc, space, mapping)?;
    document.made(format!(in alloc; "<li>{code} {state}</li>"));
    Ok(())
}

fn state_text(alloc: Global, space: &Space, mapping: u16) -> Result<String, Memory> {
    if !is_open(space, mapping) {
        return Ok(String::from_str(alloc, "in force")?);
    }
    let count = space.count_violations(alloc, mapping)?;
    Ok(format!(in alloc; "proposed, {count} violations")?)
}
