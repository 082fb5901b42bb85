//! Tuples with the same key.

use base_types::{Memory, TryCopy, Tuple, ValueList};
use std::alloc::Global;
use std::collections::BTreeMap;
use ws_print::Lines;
use ws_question::inner_text;
use ws_space::{Space, has_unknown};
use ws_written::Relation;

/// The clashes of a relation's key: for each key that several tuples have, these tuples in the form that commands take.
#[derive(Drop)]
pub(crate) struct Clashes {
    pub relation: usize,
    pub groups: Vec<Vec<String>>,
}

/// The clashes of the keys, relation by relation; relations without a clash are left out.
pub(crate) fn clashes_of(alloc: Global, space: &Space) -> Result<Vec<Clashes>, Memory> {
    let mut all = Vec::new(alloc);
    for (number, relation) in space.relations.iter().enumerate() {
        if has_key(relation) {
            let groups = clashing(alloc, space, number, relation)?;
            if !groups.is_empty() {
                all.push(Clashes {
                    relation: number,
                    groups,
                })?;
            }
        }
    }
    Ok(all)
}

fn has_key(relation: &Relation) -> bool {
    for column in relation.columns.iter() {
        if column.key {
            return true;
        }
    }
    false
}

fn clashing(
    alloc: Global,
    space: &Space,
    number: usize,
    relation: &Relation,
) -> Result<Vec<Vec<String>>, Memory> {
    let mut clashing = Vec::new(alloc);
    for group in grouped(alloc, space, number, relation)?.iter() {
        if 1 < group.len() {
            clashing.push(inner_texts(alloc, space, group.as_slice())?)?;
        }
    }
    Ok(clashing)
}

/// The tuples in the form that commands take.
pub(crate) fn inner_texts(
    alloc: Global,
    space: &Space,
    tuples: &[Tuple],
) -> Result<Vec<String>, Memory> {
    let mut texts = Lines::new(alloc);
    for tuple in tuples {
        texts.made(inner_text(alloc, space, tuple));
    }
    Ok(texts.done()?)
}

// The tuples grouped by their keys, in the order of the first tuple of each group, and the place of each key's group.
#[derive(Drop)]
struct Groups {
    places: BTreeMap<Tuple, usize>,
    groups: Vec<Vec<Tuple>>,
}

// The tuples of a relation grouped by their keys, without the tuples that have an unknown in the key.
fn grouped(
    alloc: Global,
    space: &Space,
    number: usize,
    relation: &Relation,
) -> Result<Vec<Vec<Tuple>>, Memory> {
    let mut groups = Groups {
        places: BTreeMap::new(alloc),
        groups: Vec::new(alloc),
    };
    groups.add_rows(alloc, space, number, relation)?;
    Ok(groups.groups)
}

impl Groups {
    fn add_rows(
        &mut self,
        alloc: Global,
        space: &Space,
        number: usize,
        relation: &Relation,
    ) -> Result<(), Memory> {
        for tuple in space.rows(alloc, u32::try_from(number).unwrap_or(u32::MAX))? {
            self.add(alloc, relation, tuple)?;
        }
        Ok(())
    }

    // Adds the tuple to its group, unless it has an unknown in its key.
    fn add(&mut self, alloc: Global, relation: &Relation, tuple: Tuple) -> Result<(), Memory> {
        let place = self.place_of(alloc, relation, &tuple)?;
        if let Some(group) = self.groups.get_mut(place.unwrap_or(usize::MAX)) {
            group.push(tuple)?;
        }
        Ok(())
    }

    // The place of the group of the tuple's key. A new key begins a group; a key with an unknown has none.
    fn place_of(
        &mut self,
        alloc: Global,
        relation: &Relation,
        tuple: &Tuple,
    ) -> Result<Option<usize>, Memory> {
        let key = key_of(alloc, relation, tuple)?;
        if has_unknown(&key) {
            return Ok(None);
        }
        if let Some(place) = self.places.get(&key) {
            return Ok(Some(*place));
        }
        let place = self.groups.len();
        self.groups.push(Vec::new(alloc))?;
        self.places.insert(key, place)?;
        Ok(Some(place))
    }
}

fn key_of(alloc: Global, relation: &Relation, tuple: &Tuple) -> Result<Tuple, Memory> {
    let mut values = ValueList::new(alloc);
    for (place, value) in tuple.values.as_slice().iter().enumerate() {
        match relation.columns.get(place) {
            Some(column) if column.key => values.push(value.copy(alloc)?)?,
            _ => {}
        }
    }
    Tuple::new(alloc, 0, values)
}
