//! Why a tuple is there: its reason, and below that the reasons for the tuples that it rests on.

use crate::steps::{Origin, Steps, origin_by};
use base_types::{Memory, Tuple, TupleList};
use std::alloc::Global;
use std::collections::BTreeSet;
use ws_lines::Source;
use ws_run::WANT;
use ws_space::Space;

/// How a tuple came to be there: it is in the base, it was inserted, the mapping with this number made it for an image of its
/// left side, or it was another tuple. All of it is by names.
#[derive(Drop)]
pub(crate) enum How {
    Base,
    Inserted,
    Generated(u16, TupleList),
    Rewritten(Tuple),
}

impl How {
    /// The word for it.
    pub(crate) fn word(&self) -> &'static str {
        match self {
            How::Base => "base",
            How::Inserted => "inserted",
            How::Generated(_, _) => "generated",
            How::Rewritten(_) => "rewritten",
        }
    }
}

/// A reason: the tuple by names, the update that put it, its depth, and whether the same reason stands above.
#[derive(Drop)]
pub(crate) struct Reason {
    pub tuple: Tuple,
    pub number: Option<u32>,
    pub how: How,
    pub depth: usize,
    pub again: bool,
}

// A tuple within that is still to be explained, as it was before a step.
#[derive(Drop)]
struct Open {
    tuple: Tuple,
    before: usize,
    depth: usize,
}

/// The reasons for a tuple within that is there: first its own, and after each reason those for what the tuple rests on.
pub(crate) fn reasons_for(
    alloc: Global,
    space: &Space,
    tuple: &Tuple,
) -> Result<Vec<Reason>, Memory> {
    let steps = Steps::of(alloc, space)?;
    let mut told = Told {
        reasons: Vec::new(alloc),
        open: Vec::new(alloc),
        seen: BTreeSet::new(alloc),
    };
    told.add_open(tuple, steps.count(), 0)?;
    told.explain_all(alloc, space, &steps)?;
    Ok(told.reasons)
}

// The reasons so far; the tuples still to be explained; and those explained already, each with the place of the step that put it.
#[derive(Drop)]
struct Told {
    reasons: Vec<Reason>,
    open: Vec<Open>,
    seen: BTreeSet<(Tuple, Option<usize>)>,
}

impl Told {
    fn add_open(&mut self, tuple: &Tuple, before: usize, depth: usize) -> Result<(), Memory> {
        self.open.push(Open {
            tuple: tuple.share()?,
            before,
            depth,
        })?;
        Ok(())
    }

    fn explain_all(
        &mut self,
        alloc: Global,
        space: &Space,
        steps: &Steps<'_>,
    ) -> Result<(), Memory> {
        for _ in 0..u64::MAX {
            let Some(next) = self.open.pop() else {
                break;
            };
            self.explain(alloc, space, steps, &next)?;
        }
        Ok(())
    }

    // Adds the reason for the tuple, and opens the tuples that it rests on, unless the reason stands above.
    fn explain(
        &mut self,
        alloc: Global,
        space: &Space,
        steps: &Steps<'_>,
        next: &Open,
    ) -> Result<(), Memory> {
        let place = steps.origin(&next.tuple, next.before);
        let again = !self.seen.insert((next.tuple.share()?, place))?;
        if WANT <= next.tuple.relation {
            return Ok(());
        }
        let tuple = space.state.names().tuple(alloc, &next.tuple)?;
        let (how, number, rests) = how_of(alloc, space, steps, &next.tuple, place)?;
        self.reasons.push(Reason {
            tuple,
            number,
            how,
            depth: next.depth,
            again,
        })?;
        if again {
            return Ok(());
        }
        self.open_all(rests.as_slice(), place.unwrap_or(0), next.depth)
    }

    fn open_all(&mut self, tuples: &[Tuple], before: usize, depth: usize) -> Result<(), Memory> {
        for tuple in tuples.iter().rev() {
            self.add_open(tuple, before, depth.saturating_add(1))?;
        }
        Ok(())
    }
}

// How the tuple came to be there, the update that put it, and the tuples within that it rests on.
fn how_of(
    alloc: Global,
    space: &Space,
    steps: &Steps<'_>,
    tuple: &Tuple,
    place: Option<usize>,
) -> Result<(How, Option<u32>, TupleList), Memory> {
    let names = space.state.names();
    let Some(made) = steps.all.get(place.unwrap_or(usize::MAX)) else {
        return Ok((How::Base, None, TupleList::new(alloc)));
    };
    let number = space.number_at(made.standing.held);
    match origin_by(alloc, *made, tuple)? {
        Origin::Inserted => Ok((How::Inserted, number, TupleList::new(alloc))),
        Origin::Generated(source, image) => {
            let told = names.tuples(alloc, image.as_slice())?;
            Ok((How::Generated(mapping_of(source), told), number, image))
        }
        Origin::Rewritten(from) => {
            let told = names.tuple(alloc, &from)?;
            let mut rests = TupleList::new(alloc);
            rests.push(from)?;
            Ok((How::Rewritten(told), number, rests))
        }
    }
}

fn mapping_of(source: Source) -> u16 {
    match source {
        Source::By(mapping) => mapping,
        Source::Fix(mapping) => mapping,
        Source::Draw => u16::MAX,
    }
}
