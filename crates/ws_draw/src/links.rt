//! A mapping as it is drawn, from the relations that it reads to the relations that it fills.

use std::alloc::{AllocError, Global};
use ws_written::{Atom, Rule};

/// A mapping: its name, whether it is only proposed, and the numbers of the relations on its left and on its right side. The
/// numbers rise, so each stands once.
#[derive(Drop)]
pub struct Link<'a> {
    pub name: &'a str,
    pub is_open: bool,
    pub left: Vec<u32>,
    pub right: Vec<u32>,
}

/// The mapping as it is drawn.
pub fn link_of(alloc: Global, rule: &Rule, is_open: bool) -> Result<Link<'_>, AllocError> {
    Ok(Link {
        name: rule.name.as_str(),
        is_open,
        left: relations_of(alloc, rule.left.as_slice())?,
        right: relations_of(alloc, rule.right.as_slice())?,
    })
}

// The relations of the atoms, by rising numbers.
fn relations_of(alloc: Global, atoms: &[Atom]) -> Result<Vec<u32>, AllocError> {
    let mut relations = Vec::new(alloc);
    for atom in atoms {
        relations.push(atom.relation)?;
    }
    relations.sort_unstable();
    relations.dedup();
    Ok(relations)
}
