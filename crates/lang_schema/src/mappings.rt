//! The checks of a mapping against the relations.

ghost use Rattle.std.specs.Prelude.{◌≡◌, [], length, map, IfOk, OnOk};
ghost use Rattle.base_types.specs.Meanings.{pattern_of as pattern_meant};
ghost use Rattle.def_language.specs.Reading.{each};
ghost use Rattle.def_language.specs.Names.{firsts, same_name};
ghost use Rattle.def_language.specs.Meaning.{few_atoms, mapping_of, pattern_of, some_atoms, variables_in, variables_of};
ghost use Rattle.lang_schema.specs.Answers.{Gives};
ghost use Rattle.lang_schema.specs.Meanings.{atom_of, mapping_written, session_mapping_of};
ghost use Rattle.lang_schema.specs.Relations.{atoms_fit, mapping_over, numbered_atoms, sides_fit};

use crate::names::Names;
use crate::refusals::SchemaRefusal;
use crate::schema::Schema;
use crate::variables::Variables;
use crate::written::{RawAtom, RawAtoms};
use base_types::{Atom, AtomList, List, Mapping, Memory, TryCopy};
use std::alloc::Global;

fn some_atoms(atoms: &[RawAtom]) -> Result<(), SchemaRefusal>
    ensures { Gives (λ u. u) result (some_atoms (map atom_of atoms.now)) }
{
    match atoms {
        [] => Err(SchemaRefusal::EmptySide),
        [_first, ..] => Ok(()),
    }
}

fn few_atoms(atoms: &[RawAtom]) -> Result<(), SchemaRefusal>
    ensures { Gives (λ u. u) result (few_atoms (map atom_of atoms.now)) }
{
    if 8 < atoms.len() {
        return Err(SchemaRefusal::TooManyAtoms);
    }
    Ok(())
}

// Each side has 1 to 8 atoms.
#[tactic(auto, unfolding(crate::specs::Relations::sides_fit))]
fn sides_fit(left: &RawAtoms, right: &RawAtoms) -> Result<(), SchemaRefusal>
    ensures { Gives (λ u. u) result (sides_fit (mapping_written left.now right.now)) }
{
    some_atoms(left.atoms.as_slice())?;
    some_atoms(right.atoms.as_slice())?;
    few_atoms(left.atoms.as_slice())?;
    few_atoms(right.atoms.as_slice())
}

// The relations of atoms are known, and have as many columns as the atoms have terms.
#[tactic(auto, unfolding(crate::specs::Relations::atoms_fit))]
fn atoms_fit(alloc: Global, schema: &Schema, atoms: &[RawAtom]) -> Result<(), SchemaRefusal>
    ensures { Gives (λ u. u) result (atoms_fit schema.now (map atom_of atoms.now)) }
{
    for atom in atoms {
        schema.relation_of(alloc, &atom.relation, atom.terms.len())?;
    }
    Ok(())
}

#[tactic(auto, unfolding(def_language::specs::Meaning::pattern_of))]
fn atom_of(
    alloc: Global,
    schema: &Schema,
    variables: &Variables,
    atom: &RawAtom,
) -> Result<Atom, SchemaRefusal>
    ensures { Gives pattern_meant result (pattern_of schema.now variables.now (atom_of atom.now)) }
{
    let relation = schema.relation_of(alloc, &atom.relation, atom.terms.len())?;
    let terms = variables.terms(alloc, atom.terms.as_slice())?;
    Ok(Atom { relation, terms })
}

fn atoms_of(
    alloc: Global,
    schema: &Schema,
    variables: &Variables,
    atoms: &[RawAtom],
) -> Result<AtomList, SchemaRefusal>
    ensures { Gives (λ l. map pattern_meant l.items) result
        (each (pattern_of schema.now variables.now) (map atom_of atoms.now)) }
{
    let mut found = List::new(alloc);
    for atom in atoms {
        found.push(atom_of(alloc, schema, variables, atom)?)?;
    }
    Ok(found)
}

/// Atoms with relations and variables by number, and the names of the variables in the order of their numbers. Variables are
/// numbered by first occurrence. They are refused at the first atom from the left whose relation is not known or has another
/// number of columns.
#[tactic(auto, unfolding(crate::specs::Relations::numbered_atoms))]
pub fn numbered_atoms(
    alloc: Global,
    schema: &Schema,
    atoms: &[RawAtom],
) -> Result<(AtomList, Names), SchemaRefusal>
    ensures numbered { Gives (λ x. (map pattern_meant x.0.items, x.1.items)) result
        (numbered_atoms schema.now (map atom_of atoms.now)) }
{
    let mut variables = Variables::new(alloc);
    variables.note_atoms(alloc, atoms)?;
    let found = atoms_of(alloc, schema, &variables, atoms)?;
    Ok((found, variables.into_names()))
}

// Notes the variables of both sides, and returns the number of universal ones.
fn note_sides(
    alloc: Global,
    variables: &mut Variables,
    left: &RawAtoms,
    right: &RawAtoms,
) -> Result<u16, Memory>
    requires none { variables.old ≡ [] }
    ensures noted { OnOk result (variables.new ≡
        variables_of (mapping_written left.now right.now)) }
    ensures universal { IfOk result (λ n. n ≡
        length (firsts same_name (variables_in (map atom_of left.now.atoms.items)))) }
{
    variables.note_atoms(alloc, left.atoms.as_slice())?;
    let Ok(universal) = u16::try_from(variables.len()) else {
        return Err(Memory);
    };
    variables.note_atoms(alloc, right.atoms.as_slice())?;
    Ok(universal)
}

// A mapping over its variables. Its sides must have been found to fit.
#[tactic(auto, unfolding(crate::specs::Relations::mapping_over))]
fn mapping_with(
    alloc: Global,
    schema: &Schema,
    variables: &Variables,
    universal: u16,
    since: u32,
    left: &RawAtoms,
    right: &RawAtoms,
) -> Result<Mapping, SchemaRefusal>
    requires noted { variables.now ≡ variables_of (mapping_written left.now right.now) }
    requires universal { universal ≡
        length (firsts same_name (variables_in (map atom_of left.now.atoms.items))) }
    ensures { Gives session_mapping_of result
        (mapping_over schema.now since (mapping_written left.now right.now)) }
{
    let name = left.name.copy(alloc)?;
    let names = variables.list(alloc)?;
    let left_atoms = atoms_of(alloc, schema, variables, left.atoms.as_slice())?;
    let right_atoms = atoms_of(alloc, schema, variables, right.atoms.as_slice())?;
    Ok(Mapping {
        name,
        names,
        universal,
        since,
        left: left_atoms,
        right: right_atoms,
    })
}

// A mapping. Its sides must have been found to fit.
fn mapping_over(
    alloc: Global,
    schema: &Schema,
    since: u32,
    left: &RawAtoms,
    right: &RawAtoms,
) -> Result<Mapping, SchemaRefusal>
    ensures { Gives session_mapping_of result
        (mapping_over schema.now since (mapping_written left.now right.now)) }
{
    let mut variables = Variables::new(alloc);
    let universal = note_sides(alloc, &mut variables, left, right)?;
    mapping_with(alloc, schema, &variables, universal, since, left, right)
}

/// Checks a mapping that update number `since` puts in force, or that is in force from the start if `since` is 0. Both sides must
/// have the mapping's name. It is refused if a side has no atom, then if a side has more than 8, and then at the first atom from
/// the left whose relation is not known or has another number of columns. The variables are numbered by first occurrence.
pub fn check_added_mapping(
    alloc: Global,
    schema: &Schema,
    since: u32,
    left: &RawAtoms,
    right: &RawAtoms,
) -> Result<Mapping, SchemaRefusal>
    requires one_name { left.now.name.items ≡ right.now.name.items }
    ensures checked { Gives session_mapping_of result
        (mapping_of schema.now since (mapping_written left.now right.now)) }
{
    sides_fit(left, right)?;
    atoms_fit(alloc, schema, left.atoms.as_slice())?;
    atoms_fit(alloc, schema, right.atoms.as_slice())?;
    mapping_over(alloc, schema, since, left, right)
}
