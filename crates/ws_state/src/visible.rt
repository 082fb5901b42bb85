//! The tuples that people see come and go at a replay.

use crate::ways::put;
use base_types::{Memory, Tuple, TupleList};
use std::alloc::Global;
use std::collections::BTreeMap;
use ws_run::{Ground, Touched, WANT};

/// How what stands differs from the last fold: the tuples that came and went since, by names, each with its form within.
#[derive(Drop)]
pub(crate) struct Visible {
    came: BTreeMap<Tuple, Tuple>,
    went: BTreeMap<Tuple, Tuple>,
}

/// How what stands now differs from the last fold.
pub(crate) fn visible_of(alloc: Global, ground: &Ground) -> Result<Visible, Memory> {
    let mut touched = Touched::new(alloc);
    touched.made(ground.trail.as_slice())?;
    let mut visible = Visible {
        came: BTreeMap::new(alloc),
        went: BTreeMap::new(alloc),
    };
    for (tuple, touch) in &touched.tuples {
        if touch.was != touch.is && tuple.relation < WANT {
            visible.add(alloc, ground, tuple, touch.is)?;
        }
    }
    Ok(visible)
}

impl Visible {
    // Adds a tuple that came, or that went.
    fn add(
        &mut self,
        alloc: Global,
        ground: &Ground,
        tuple: &Tuple,
        came: bool,
    ) -> Result<(), Memory> {
        let named = ground.names.tuple(alloc, tuple)?;
        let seen = if came { &mut self.came } else { &mut self.went };
        put(seen, &named, tuple.share()?)
    }
}

/// The tuples that are seen in `new` and not in `old`, by names, in the order of their forms within.
pub(crate) fn came_between(
    alloc: Global,
    old: &Visible,
    new: &Visible,
) -> Result<TupleList, Memory> {
    let mut order = BTreeMap::new(alloc);
    add_apart(&mut order, &new.came, &old.came)?;
    add_apart(&mut order, &old.went, &new.went)?;
    in_order(alloc, order)
}

// Adds the tuples that are among `ones` alone, each by its form within.
fn add_apart(
    order: &mut BTreeMap<Tuple, Tuple>,
    ones: &BTreeMap<Tuple, Tuple>,
    others: &BTreeMap<Tuple, Tuple>,
) -> Result<(), Memory> {
    for (named, tuple) in ones {
        if others.get(named).is_none() {
            put(order, tuple, named.share()?)?;
        }
    }
    Ok(())
}

// The tuples in the order of their forms within.
fn in_order(alloc: Global, order: BTreeMap<Tuple, Tuple>) -> Result<TupleList, Memory> {
    let mut tuples = TupleList::new(alloc);
    for (_, named) in order {
        tuples.push(named)?;
    }
    Ok(tuples)
}
