//! Putting a dump together.

use crate::base::{places_of, tuples_before};
use crate::comments::add_comments;
use crate::cutting::cut_of;
use crate::hidden::relations_of;
use crate::mappings::first_mappings;
use crate::renaming::Renaming;
use crate::updates::Updates;
use base_types::{Memory, Tuple, TupleList};
use lang_print::print_session;
use lang_schema::Schema;
use lang_session::{Session, SessionUpdates};
use std::alloc::Global;
use std::collections::BTreeSet;
use ws_print::Lines;
use ws_space::Space;

/// The lines of the dump.
pub fn dump(alloc: Global, space: &Space) -> Result<Vec<String>, Memory> {
    let cut = cut_of(alloc, space)?;
    let tuples = tuples_before(alloc, space, cut)?;
    dump_from(alloc, space, &tuples, cut)
}

// The lines of the dump with these tuples as its base.
fn dump_from(
    alloc: Global,
    space: &Space,
    tuples: &BTreeSet<Tuple>,
    cut: usize,
) -> Result<Vec<String>, Memory> {
    let places = places_of(alloc, tuples)?;
    let (schema, hidden) = relations_of(alloc, space, cut)?;
    let renaming = Renaming {
        alloc,
        first: first_of(space, cut),
        places,
        hidden,
    };
    let text = session_text(alloc, space, &renaming, schema, tuples, cut)?;
    lines_of(alloc, space, &renaming, text.as_str(), cut)
}

// The lines of the printed form, with the comments after the first one.
fn lines_of(
    alloc: Global,
    space: &Space,
    renaming: &Renaming,
    text: &str,
    cut: usize,
) -> Result<Vec<String>, Memory> {
    let mut lines = Lines::new(alloc);
    for (place, line) in text.trim_end_matches('\n').split('\n').enumerate() {
        lines.push_str(line);
        if place == 0 {
            add_comments(alloc, &mut lines, space, renaming, cut)?;
        }
    }
    Ok(lines.done()?)
}

// The number of the last op of the updates before this place.
fn first_of(space: &Space, cut: usize) -> u32 {
    let mut first = 0;
    for standing in space.state.order().as_slice().iter().take(cut) {
        for op in standing.ops.as_slice() {
            first = op.number;
        }
    }
    first
}

// The printed form of the session.
fn session_text(
    alloc: Global,
    space: &Space,
    renaming: &Renaming,
    schema: Schema,
    tuples: &BTreeSet<Tuple>,
    cut: usize,
) -> Result<String, Memory> {
    let session = session_of(alloc, space, renaming, schema, tuples, cut)?;
    let bytes = printed(alloc, session)?;
    Ok(String::from_utf8_lossy(alloc, bytes.as_slice())?)
}

fn session_of(
    alloc: Global,
    space: &Space,
    renaming: &Renaming,
    schema: Schema,
    tuples: &BTreeSet<Tuple>,
    cut: usize,
) -> Result<Session, Memory> {
    let base = renamed(renaming, tuples)?;
    let updates = updates_of(alloc, space, renaming, cut)?;
    Ok(Session {
        format: 2,
        schema,
        mappings: updates.mappings,
        base,
        updates: updates.updates,
    })
}

fn updates_of(
    alloc: Global,
    space: &Space,
    renaming: &Renaming,
    cut: usize,
) -> Result<Updates, Memory> {
    let mut updates = Updates {
        mappings: first_mappings(alloc, space, &renaming.hidden, cut)?,
        updates: SessionUpdates::new(alloc),
    };
    updates.add_all(alloc, space, renaming, cut)?;
    Ok(updates)
}

fn printed(alloc: Global, session: Session) -> Result<Vec<u8>, Memory> {
    print_session(alloc, &session)
}

fn renamed(renaming: &Renaming, tuples: &BTreeSet<Tuple>) -> Result<TupleList, Memory> {
    let mut base = TupleList::new(renaming.alloc);
    for tuple in tuples {
        base.push(renaming.tuple(tuple, None)?)?;
    }
    Ok(base)
}
