//! `graph`, and the links that draw the mappings.

use std::alloc::{AllocError, Global};
use ws_draw::{Link, graph_lines, link_of};
use ws_fault::Refusal;
use ws_space::Space;

/// The mappings that are not gone: first those in force, in their order, then the proposed ones.
pub(crate) fn mappings_of(alloc: Global, space: &Space) -> Result<Vec<u16>, AllocError> {
    let mut mappings = Vec::new(alloc);
    for mapping in space.state.in_force() {
        mappings.push(*mapping)?;
    }
    for place in 0..space.rules.len() {
        let mapping = u16::try_from(place).unwrap_or(u16::MAX);
        if is_open(space, mapping) && !space.state.is_gone(mapping) {
            mappings.push(mapping)?;
        }
    }
    Ok(mappings)
}

/// Whether a mapping is not in force.
pub(crate) fn is_open(space: &Space, mapping: u16) -> bool {
    !space.state.in_force().contains(&mapping)
}

/// The links that draw the mappings.
pub(crate) fn links_of(alloc: Global, space: &Space) -> Result<Vec<Link<'_>>, AllocError> {
    let mut links = Vec::new(alloc);
    for mapping in mappings_of(alloc, space)? {
        if let Some(rule) = space.rule(mapping) {
            links.push(link_of(alloc, rule, is_open(space, mapping))?)?;
        }
    }
    Ok(links)
}

/// The lines of the graph of relations and mappings, in DOT.
pub fn graph(alloc: Global, space: &Space) -> Result<Vec<String>, Refusal> {
    let links = links_of(alloc, space)?;
    Ok(graph_lines(alloc, space.relations.as_slice(), links.as_slice())?)
}
