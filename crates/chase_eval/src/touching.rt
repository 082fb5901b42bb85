//! For each relation the mappings to which a write of its tuples may give a violation.
ghost use Rattle.std.specs.Prelude.{◌≡◌, ◌==◌, ℕ, List, ◌||◌, ◌&&◌, map, IfOk, IfSome, OnOk};
ghost use Rattle.std.specs.List.{slice_get};
ghost use Rattle.std.specs.Option.{option_copied};
ghost use Rattle.base_types.specs.Contents.{rules_in};
ghost use Rattle.base_types.specs.Meanings.{change_of, heading_of, pattern_of, rule_of};
ghost use Rattle.def_chase.specs.Mappings.{Rule};
ghost use Rattle.chase_violation.specs.Violated.{side};
ghost use Rattle.chase_eval.specs.Touching.{is_among, AreNumbers, AreRows, IsTouching};
ghost use Rattle.chase_eval.specs.Watched.{touches};

use crate::settled::stands_in;
use base_types::{AtomList, Direction, Mapping, MappingList, Memory, Write};
use std::alloc::Global;

/// For each relation the numbers of the mappings with an atom of it, on the left and on the right. It is made once for many views
/// over the same mappings.
#[derive(Drop)]
pub struct Touching {
    left: Vec<Vec<usize>>,
    right: Vec<Vec<usize>>,
}

impl Touching {
    /// The numbers for these mappings.
    pub fn of(alloc: Global, mappings: &MappingList) -> Result<Touching, Memory>
        ensures touching { IfOk result (IsTouching (rules_in mappings.now)) }
    {
        let bound = bound(mappings);
        let left = rows(alloc, mappings, Direction::Forward, bound)?;
        let right = rows(alloc, mappings, Direction::Backward, bound)?;
        Ok(Touching { left, right })
    }

    /// The numbers of the mappings that the write touches; None if its relation has no row.
    pub(crate) fn numbers(&self, write: &Write) -> Option<&Vec<usize>>
        ensures numbers { IfSome result (λ row. (ms : List Rule) (n : ℕ) → IsTouching ms self.now →
            is_among row.now.items n ≡ touches (change_of write.now) (slice_get ms n)) }
    {
        match write {
            Write::Insert(tuple) => row_at(&self.left, tuple.relation),
            Write::Delete(tuple) => row_at(&self.right, tuple.relation),
        }
    }
}

// The row of the relation, if there is one.
fn row_at(rows: &Vec<Vec<usize>>, relation: u16) -> Option<&Vec<usize>>
    ensures row { option_copied result ≡ slice_get rows.now.items relation }
{
    rows.get(relation as usize)
}

// A number above every relation in an atom; at most the greatest `u16`.
fn bound(mappings: &MappingList) -> u16 {
    let mut bound = 0;
    for mapping in mappings.as_slice() {
        bound = bound_with(bound_with(bound, &mapping.left), &mapping.right);
    }
    bound
}

// The bound, raised above every relation in these atoms.
fn bound_with(bound: u16, atoms: &AtomList) -> u16 {
    let mut bound = bound;
    for atom in atoms.as_slice() {
        bound = bound.max(atom.relation.saturating_add(1));
    }
    bound
}

// For each relation below the bound the mappings with an atom of it on a side: forward on the left, backward on the right.
fn rows(
    alloc: Global,
    mappings: &MappingList,
    direction: Direction,
    bound: u16,
) -> Result<Vec<Vec<usize>>, Memory>
    ensures rows { IfOk result
        (λ rows. AreRows (side (heading_of direction)) (rules_in mappings.now) rows.items) }
{
    let mut rows = Vec::new(alloc);
    for relation in 0..bound {
        rows.push(row(alloc, mappings, direction, relation)?)?;
    }
    Ok(rows)
}

// The mappings with an atom of the relation on the side.
fn row(
    alloc: Global,
    mappings: &MappingList,
    direction: Direction,
    relation: u16,
) -> Result<Vec<usize>, Memory>
    ensures row { IfOk result
        (λ row. AreNumbers (side (heading_of direction)) (rules_in mappings.now) relation
        row.items) }
{
    let mut row = Vec::new(alloc);
    for (number, mapping) in mappings.as_slice().iter().enumerate() {
        note(
            &mut row,
            number,
            stands_in(side_of(mapping, direction).as_slice(), relation),
        )?;
    }
    Ok(row)
}

// The atoms on the side.
fn side_of(mapping: &Mapping, direction: Direction) -> &AtomList
    ensures side { map pattern_of result.now.items ≡
        side (heading_of direction) (rule_of mapping.now) }
{
    match direction {
        Direction::Forward => &mapping.left,
        Direction::Backward => &mapping.right,
    }
}

// Adds the number if `stands` holds.
fn note(row: &mut Vec<usize>, number: usize, stands: bool) -> Result<(), Memory>
    ensures noted { OnOk result ((n : ℕ) → is_among row.new.items n ≡
        (is_among row.old.items n || (stands && number == n))) }
{
    if stands {
        row.push(number)?;
    }
    Ok(())
}
