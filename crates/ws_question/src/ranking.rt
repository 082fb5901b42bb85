//! The order in which candidates are shown.

use base_types::{Memory, TryCopy, Tuple, Value, Write};
use std::alloc::Global;
use std::collections::BTreeSet;
use ws_run::Question;

/// The places of the candidates. First come the candidates that share most values with the image and with what the update did
/// before it asked, without the values of the wanted tuple; then they go by number. If the question asks which tuples go, all go
/// by number.
pub(crate) fn ranked(alloc: Global, question: &Question) -> Result<Vec<usize>, Memory> {
    let known = known_values(alloc, question)?;
    let counts = counts_of(alloc, question, &known)?;
    let mut places = Vec::new(alloc);
    for (_, place) in counts.iter() {
        places.push(*place)?;
    }
    Ok(places)
}

// The places of the candidates, each after its sort key: the distance of its count of known values from the greatest number. If
// the question asks which tuples go, all keys are the same.
fn counts_of(
    alloc: Global,
    question: &Question,
    known: &BTreeSet<Value>,
) -> Result<Vec<(usize, usize)>, Memory> {
    let mut counts = Vec::new(alloc);
    for (place, candidate) in question.candidates.as_slice().iter().enumerate() {
        let count = if question.is_positive {
            shared_with(candidate, known)
        } else {
            0
        };
        counts.push((usize::MAX.saturating_sub(count), place))?;
    }
    counts.sort()?;
    Ok(counts)
}

// The values of the image and of what the update did before it asked, without those of the wanted tuple.
fn known_values(alloc: Global, question: &Question) -> Result<BTreeSet<Value>, Memory> {
    let mut known = BTreeSet::new(alloc);
    add_image(alloc, &mut known, question.since.as_slice())?;
    add_written(alloc, &mut known, question.so_far.as_slice())?;
    remove_wanted(&mut known, question.asked.tuples.as_slice());
    Ok(known)
}

fn add_image(alloc: Global, known: &mut BTreeSet<Value>, image: &[Tuple]) -> Result<(), Memory> {
    for tuple in image {
        add_values(alloc, known, tuple)?;
    }
    Ok(())
}

fn add_written(alloc: Global, known: &mut BTreeSet<Value>, writes: &[Write]) -> Result<(), Memory> {
    for write in writes {
        match write {
            Write::Insert(tuple) => add_values(alloc, known, tuple)?,
            Write::Delete(tuple) => add_values(alloc, known, tuple)?,
        }
    }
    Ok(())
}

fn remove_wanted(known: &mut BTreeSet<Value>, wanted: &[Tuple]) {
    for tuple in wanted {
        for value in tuple.values.as_slice() {
            known.remove(value);
        }
    }
}

fn add_values(alloc: Global, known: &mut BTreeSet<Value>, tuple: &Tuple) -> Result<(), Memory> {
    for value in tuple.values.as_slice() {
        known.insert(value.copy(alloc)?)?;
    }
    Ok(())
}

// The number of the tuple's values that are in `known`.
fn shared_with(tuple: &Tuple, known: &BTreeSet<Value>) -> usize {
    let mut count = 0usize;
    for value in tuple.values.as_slice() {
        if known.contains(value) {
            count = count.saturating_add(1);
        }
    }
    count
}
