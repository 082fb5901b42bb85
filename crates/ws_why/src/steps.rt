//! The steps of the updates that stand, and which of them put a tuple.

use base_types::{Memory, TryCopy, Tuple, TupleList, Value, ValueList};
use chase_unifier::apply;
use run_note::{Rewriting, Way};
use std::alloc::Global;
use std::collections::BTreeMap;
use ws_lines::Source;
use ws_run::Step;
use ws_space::Space;
use ws_state::Standing;

/// A step of an update that stands.
#[derive(Clone, Copy)]
pub(crate) struct Made<'a> {
    pub standing: &'a Standing,
    pub step: &'a Step,
}

/// All steps of the updates that stand, in order, and for each tuple the places of the steps that put it.
#[derive(Drop)]
pub(crate) struct Steps<'a> {
    pub all: Vec<Made<'a>>,
    puts: BTreeMap<Tuple, Vec<usize>>,
}

impl<'a> Steps<'a> {
    /// The steps of the updates that stand.
    pub(crate) fn of(alloc: Global, space: &'a Space) -> Result<Steps<'a>, Memory> {
        let mut steps = Steps {
            all: Vec::new(alloc),
            puts: BTreeMap::new(alloc),
        };
        for standing in space.state.order().as_slice() {
            for step in standing.steps.as_slice() {
                steps.add(alloc, Made { standing, step })?;
            }
        }
        Ok(steps)
    }

    fn add(&mut self, alloc: Global, made: Made<'a>) -> Result<(), Memory> {
        let place = self.all.len();
        for tuple in made.step.note.puts.as_slice() {
            self.put(alloc, tuple, place)?;
        }
        self.all.push(made)?;
        Ok(())
    }

    // Notes that the step at a place put the tuple.
    fn put(&mut self, alloc: Global, tuple: &Tuple, place: usize) -> Result<(), Memory> {
        match self.puts.get_mut(tuple) {
            Some(places) => places.push(place)?,
            None => {
                let mut places = Vec::new(alloc);
                places.push(place)?;
                if self.puts.insert(tuple.share()?, places).is_err() {
                    return Err(Memory);
                }
            }
        }
        Ok(())
    }

    /// The place of the last step before `before` that put the tuple; None for a tuple of the base.
    pub(crate) fn origin(&self, tuple: &Tuple, before: usize) -> Option<usize> {
        for place in self.puts.get(tuple)?.iter().rev() {
            if *place < before {
                return Some(*place);
            }
        }
        None
    }

    /// The number of steps.
    pub(crate) fn count(&self) -> usize {
        self.all.len()
    }
}

/// How a step came to a tuple that it put, all within.
#[derive(Drop)]
pub(crate) enum Origin {
    Inserted,
    Generated(Source, TupleList),
    Rewritten(Tuple),
}

/// How the step came to the tuple.
pub(crate) fn origin_by(alloc: Global, made: Made<'_>, tuple: &Tuple) -> Result<Origin, Memory> {
    match &made.step.note.way {
        Way::Inserts => Ok(Origin::Inserted),
        Way::Generates { image, .. } => {
            let source = made.step.source.unwrap_or(Source::Draw);
            match source {
                Source::Fix(_) => Ok(Origin::Generated(source, made.standing.image.copy(alloc)?)),
                _ => Ok(Origin::Generated(source, image.copy(alloc)?)),
            }
        }
        Way::Rewrites(rewriting) => {
            let deleted = made.step.note.deleted.as_slice();
            Ok(Origin::Rewritten(least_from(alloc, rewriting, deleted, tuple)?))
        }
    }
}

// The least of the tuples that became this one.
fn least_from(
    alloc: Global,
    rewriting: &Rewriting,
    deleted: &[Tuple],
    tuple: &Tuple,
) -> Result<Tuple, Memory> {
    let mut least: Option<&Tuple> = None;
    for from in deleted {
        if rewritten(alloc, rewriting, from)? == *tuple {
            least = match least {
                Some(other) if other <= from => Some(other),
                _ => Some(from),
            };
        }
    }
    least.unwrap_or(tuple).share()
}

/// What the tuple became by the step.
pub(crate) fn rewritten(
    alloc: Global,
    rewriting: &Rewriting,
    tuple: &Tuple,
) -> Result<Tuple, Memory> {
    match rewriting {
        Rewriting::Unifies(unifier) => apply(alloc, unifier, tuple),
        Rewriting::Replaces { from, to } => {
            let mut values = ValueList::new(alloc);
            for value in tuple.values.as_slice() {
                values.push(replaced(from, to, value).copy(alloc)?)?;
            }
            Tuple::new(alloc, tuple.relation, values)
        }
    }
}

fn replaced<'a>(from: &Value, to: &'a Value, value: &'a Value) -> &'a Value {
    if value == from { to } else { value }
}
