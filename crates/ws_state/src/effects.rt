//! What came, what went, and which unknowns were filled.

use crate::states::{Mark, State};
use crate::ways::{by_of, ways_of};
use crate::worlds::Standing;
use base_types::{Facts, List, Memory, Null, TryCopy, Tuple, TupleList, Value, ValueList};
use std::alloc::Global;
use std::collections::{BTreeMap, BTreeSet};
use ws_lines::Source;
use ws_run::{Ground, Touched, WANT, follow};

/// A tuple that came or went, by names, and the mapping that caused it, if one did.
#[derive(Drop)]
pub struct Moved {
    pub tuple: Tuple,
    pub by: Option<u16>,
}

/// Tuples that came or went.
pub type MovedList = List<Moved>;

/// A filled unknown, by its name: its new value, by names, and the number of tuples that held it.
#[derive(Drop)]
pub struct Filled {
    pub name: Null,
    pub value: Value,
    pub tuples: u32,
}

/// Unknowns that were filled.
pub type FilledList = List<Filled>;

/// What lines did: the tuples that came and went, each in order; the unknowns that were filled; and the number of tuples that
/// became equal to another one. A tuple in which only an unknown was filled counts neither as gone nor as come.
#[derive(Drop)]
pub struct Effect {
    pub came: MovedList,
    pub went: MovedList,
    pub filled: FilledList,
    pub merged: u32,
}

impl State {
    /// What the lines since the mark did, if there was no undo or redo among them.
    pub fn effect_since(&self, alloc: Global, mark: Mark) -> Result<Effect, Memory> {
        let ground = &self.world.ground;
        let standings = after(self.world.order.as_slice(), mark.order);
        let mut touched = Touched::new(alloc);
        touched.made(after(ground.trail.as_slice(), mark.trail))?;
        let before = were_there(alloc, &touched)?;
        let by = ways_of(alloc, ground, standings)?;
        self.effect_of(alloc, mark, &touched, &before, &by)
    }

    // What the lines since the mark did: they touched these tuples, of which some were there before; `by` has the mappings.
    fn effect_of(
        &self,
        alloc: Global,
        mark: Mark,
        touched: &Touched,
        before: &TupleList,
        by: &BTreeMap<Tuple, Source>,
    ) -> Result<Effect, Memory> {
        let ground = &self.world.ground;
        let standings = after(self.world.order.as_slice(), mark.order);
        let targets = followed_all(alloc, standings, before)?;
        let merged = merged_of(alloc, ground, touched, &targets)?;
        let came = came_of(alloc, ground, touched, &targets, by)?;
        let went = went_of(alloc, ground, before, &targets, by)?;
        let filled = filled_of(alloc, ground, mark, standings, before)?;
        Ok(Effect {
            came,
            went,
            filled,
            merged,
        })
    }
}

// The items after the first `count`.
fn after<T>(items: &[T], count: usize) -> &[T] {
    items.get(count..).unwrap_or(&[])
}

// The touched tuples that were there before, in order.
fn were_there(alloc: Global, touched: &Touched) -> Result<TupleList, Memory> {
    let mut before = TupleList::new(alloc);
    for (tuple, touch) in &touched.tuples {
        if touch.was && tuple.relation < WANT {
            before.push(tuple.share()?)?;
        }
    }
    Ok(before)
}

// What the value has become by the updates.
fn followed_value(alloc: Global, standings: &[Standing], value: &Value) -> Result<Value, Memory> {
    let mut now = value.copy(alloc)?;
    for standing in standings {
        now = follow(alloc, standing.steps.as_slice(), &now)?;
    }
    Ok(now)
}

// What the tuples have become by the updates.
fn followed_all(
    alloc: Global,
    standings: &[Standing],
    tuples: &TupleList,
) -> Result<TupleList, Memory> {
    let mut all = TupleList::new(alloc);
    for tuple in tuples.as_slice() {
        let mut values = ValueList::new(alloc);
        for value in tuple.values.as_slice() {
            values.push(followed_value(alloc, standings, value)?)?;
        }
        all.push(Tuple::new(alloc, tuple.relation, values)?)?;
    }
    Ok(all)
}

// The tuples that are there now and were not, and that no earlier tuple has become.
fn came_of(
    alloc: Global,
    ground: &Ground,
    touched: &Touched,
    targets: &TupleList,
    by: &BTreeMap<Tuple, Source>,
) -> Result<MovedList, Memory> {
    let targets = set_of(alloc, targets)?;
    let mut came = MovedList::new(alloc);
    for (tuple, touch) in &touched.tuples {
        if touch.is && tuple.relation < WANT && !targets.contains(tuple) {
            came.push(Moved {
                tuple: ground.names.tuple(alloc, tuple)?,
                by: by_of(by, tuple),
            })?;
        }
    }
    Ok(came)
}

// The earlier tuples that are not there any more, under whatever values they have now.
fn went_of(
    alloc: Global,
    ground: &Ground,
    before: &TupleList,
    targets: &TupleList,
    by: &BTreeMap<Tuple, Source>,
) -> Result<MovedList, Memory> {
    let mut went = MovedList::new(alloc);
    for (tuple, target) in before.as_slice().iter().zip(targets.as_slice()) {
        if !ground.facts.contains(target) {
            went.push(Moved {
                tuple: ground.names.tuple(alloc, tuple)?,
                by: by_of(by, tuple),
            })?;
        }
    }
    Ok(went)
}

// The number of earlier tuples that are still there, but became equal to another one.
fn merged_of(
    alloc: Global,
    ground: &Ground,
    touched: &Touched,
    targets: &TupleList,
) -> Result<u32, Memory> {
    let mut seen: BTreeSet<Tuple> = BTreeSet::new(alloc);
    let mut merged: u32 = 0;
    for target in targets.as_slice() {
        if ground.facts.contains(target) {
            // A target that was not touched was there before as itself.
            if seen.contains(target) || touched.tuples.get(target).is_none() {
                merged = merged.saturating_add(1);
            }
            if seen.insert(target.share()?).is_err() {
                return Err(Memory);
            }
        }
    }
    Ok(merged)
}

fn set_of(alloc: Global, tuples: &TupleList) -> Result<BTreeSet<Tuple>, Memory> {
    let mut set = BTreeSet::new(alloc);
    for tuple in tuples.as_slice() {
        if set.insert(tuple.share()?).is_err() {
            return Err(Memory);
        }
    }
    Ok(set)
}

// The unknowns of before the mark that have another value now, by name.
fn filled_of(
    alloc: Global,
    ground: &Ground,
    mark: Mark,
    standings: &[Standing],
    before: &TupleList,
) -> Result<FilledList, Memory> {
    let holders = holders_of(alloc, mark, before)?;
    let mut filled = BTreeMap::new(alloc);
    for (null, tuples) in &holders {
        let now = followed_value(alloc, standings, &Value::Null(*null))?;
        add_filled(alloc, ground, &mut filled, *null, &now, *tuples)?;
    }
    by_names(alloc, filled)
}

// Adds an unknown with its value now and the number of tuples that hold it, unless it has no other value.
fn add_filled(
    alloc: Global,
    ground: &Ground,
    filled: &mut BTreeMap<Null, Filled>,
    null: Null,
    now: &Value,
    tuples: u32,
) -> Result<(), Memory> {
    if *now == Value::Null(null) {
        return Ok(());
    }
    let name = ground.names.name_of(null);
    let value = ground.names.value(alloc, now)?;
    let one = Filled {
        name,
        value,
        tuples,
    };
    match filled.insert(name, one) {
        Ok(_) => Ok(()),
        Err(_) => Err(Memory),
    }
}

// The filled unknowns in the order of their names.
fn by_names(alloc: Global, filled: BTreeMap<Null, Filled>) -> Result<FilledList, Memory> {
    let mut all = FilledList::new(alloc);
    for (_, one) in filled {
        all.push(one)?;
    }
    Ok(all)
}

// The unknowns of before the mark, each with the number of these tuples that hold it.
fn holders_of(
    alloc: Global,
    mark: Mark,
    before: &TupleList,
) -> Result<BTreeMap<Null, u32>, Memory> {
    let mut holders: BTreeMap<Null, u32> = BTreeMap::new(alloc);
    for tuple in before.as_slice() {
        let nulls = nulls_of(alloc, tuple)?;
        for null in &nulls {
            if null.update <= mark.last {
                let count = holders.get(null).copied().unwrap_or(0);
                if holders.insert(*null, count.saturating_add(1)).is_err() {
                    return Err(Memory);
                }
            }
        }
    }
    Ok(holders)
}

// The nulls of the tuple, each once.
fn nulls_of(alloc: Global, tuple: &Tuple) -> Result<BTreeSet<Null>, Memory> {
    let mut nulls = BTreeSet::new(alloc);
    for value in tuple.values.as_slice() {
        if let Value::Null(null) = value {
            if nulls.insert(*null).is_err() {
                return Err(Memory);
            }
        }
    }
    Ok(nulls)
}
