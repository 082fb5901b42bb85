//! The hidden relations and mappings.
ghost use Rattle.std.specs.Prelude.{◌≡◌, map, pos, IfOk};
ghost use Rattle.base_types.specs.Meanings.{datum_of, fact_of};
ghost use Rattle.base_types.specs.Contents.{data_of};
ghost use Rattle.def_chase.specs.Values.{Number};
ghost use Rattle.def_workspace.specs.Hidden.{found_as as found_fact, or_zero as or_else, to_fix as fix_fact, wanted as wanted_fact};
ghost use Rattle.def_workspace.specs.Ops.{new_among, new_in};
ghost use Rattle.def_workspace.specs.Places.{greater as greater_of};
ghost use Rattle.ws_lines.specs.Meanings.{deed_of, spelled_fact_of, spelled_of};
ghost use Rattle.ws_ground.specs.News.{new_at, news};

use base_types::{
    Atom, AtomList, Mapping, Memory, Name, NameList, Term, TermRow, TryCopy, Tuple, Value,
    ValueList,
};
use std::alloc::Global;
use ws_lines::{Deed, Spelled, SpelledTuple};

/// The relation whose tuples ask for new unknowns.
pub const WANT: u16 = 100;

/// The relation whose tuples give the value of each new unknown.
pub const UNKNOWN: u16 = 101;

/// The relation whose tuples give the values that a mapping is to be repaired for.
pub const FIX: u16 = 102;

/// The tuple that asks for the new unknown of this number.
pub fn wanted(alloc: Global, number: u32) -> Result<Tuple, Memory>
    ensures tuple { IfOk result (λ tuple. fact_of tuple ≡ wanted_fact number) }
{
    let mut values = ValueList::new(alloc);
    values.push(Value::Int(i64::from(number)))?;
    Tuple::new(alloc, WANT, values)
}

/// The tuple that gives the new unknown of this number this value.
pub fn found_as(alloc: Global, number: u32, value: Value) -> Result<Tuple, Memory>
    ensures tuple { IfOk result (λ tuple. fact_of tuple ≡ found_fact number (datum_of value)) }
{
    let mut values = ValueList::new(alloc);
    values.push(Value::Int(i64::from(number)))?;
    values.push(value)?;
    Tuple::new(alloc, UNKNOWN, values)
}

/// The tuple that asks for the repair of a mapping for these values.
pub fn to_fix(alloc: Global, values: ValueList) -> Result<Tuple, Memory>
    ensures tuple { IfOk result (λ tuple. fact_of tuple ≡ fix_fact (data_of values)) }
{
    let values = or_zero(values)?;
    Tuple::new(alloc, FIX, values)
}

// The values, or the number 0 if there are none.
#[tactic(auto, using(crate::proofs::Counting::some_values))]
fn or_zero(values: ValueList) -> Result<ValueList, Memory>
    ensures values { IfOk result (λ all. data_of all ≡
        or_else (Number (pos 0)) (data_of values)) }
{
    if !values.is_empty() {
        return Ok(values);
    }
    let mut values = values;
    values.push(Value::Int(0))?;
    Ok(values)
}

/// The number of new unknowns in the update.
#[tactic(auto, using(crate::proofs::Counting::one_tuple))]
pub fn news_of(deed: &Deed) -> u32
    ensures news { result ≡ news (deed_of deed.now) }
{
    match deed {
        Deed::Insert(tuples) => news_among(tuples.as_slice()),
        Deed::Delete(_) => 0,
        Deed::Fill(_, _) => 0,
        Deed::Swap(_, tuple) => news_in(tuple.values.as_slice()),
        Deed::Fix(_, _) => 0,
        Deed::Force(_) => 0,
        Deed::Drop(_) => 0,
    }
}

fn news_among(tuples: &[SpelledTuple]) -> u32
    ensures news { result ≡ new_among (map spelled_fact_of tuples.now) }
{
    let mut most = 0;
    for tuple in tuples {
        most = greater(most, news_in(tuple.values.as_slice()));
    }
    most
}

fn news_in(values: &[Spelled]) -> u32
    ensures news { result ≡ new_in (map spelled_of values.now) }
{
    let mut most = 0;
    for value in values {
        most = greater(most, news_at(value));
    }
    most
}

// The number of the new unknown; 0 for a known value.
fn news_at(value: &Spelled) -> u32
    ensures news { result ≡ new_at (spelled_of value.now) }
{
    match value {
        Spelled::Known(_) => 0,
        Spelled::New(number) => *number,
    }
}

fn greater(one: u32, other: u32) -> u32
    ensures greater { result ≡ greater_of one other }
{
    if one < other { other } else { one }
}

/// The hidden mapping that draws new unknowns, `_new: _want(n) -> _unknown(n, u)`.
pub fn drawing_mapping(alloc: Global) -> Result<Mapping, Memory> {
    let mut left = AtomList::new(alloc);
    left.push(atom_of(alloc, WANT, &[0])?)?;
    let mut right = AtomList::new(alloc);
    right.push(atom_of(alloc, UNKNOWN, &[0, 1])?)?;
    let mut names = NameList::new(alloc);
    names.push(name(alloc, b"n")?)?;
    names.push(name(alloc, b"u")?)?;
    Ok(Mapping {
        name: name(alloc, b"_new")?,
        names,
        universal: 1,
        since: 0,
        left,
        right,
    })
}

fn name(alloc: Global, bytes: &[u8]) -> Result<Name, Memory> {
    let mut vec = Vec::new(alloc);
    vec.extend_from_slice(bytes)?;
    Ok(Name::from_vec(vec))
}

// The atom of the relation with these variables.
fn atom_of(alloc: Global, relation: u16, variables: &[u16]) -> Result<Atom, Memory> {
    let mut terms = TermRow::new(alloc);
    for variable in variables {
        terms.push(Term::Var(*variable))?;
    }
    Ok(Atom { relation, terms })
}

/// The variables of a mapping that stand on both sides, in the order of their first places.
pub fn shared_variables(alloc: Global, mapping: &Mapping) -> Result<Vec<u16>, Memory> {
    let mut shared = Vec::new(alloc);
    for variable in 0..mapping.universal {
        if stands_in(&mapping.right, variable) {
            shared.push(variable)?;
        }
    }
    Ok(shared)
}

fn stands_in(atoms: &AtomList, variable: u16) -> bool {
    atoms
        .as_slice()
        .iter()
        .any(|atom| has_variable(atom, variable))
}

fn has_variable(atom: &Atom, variable: u16) -> bool {
    atom.terms
        .as_slice()
        .iter()
        .any(|term| matches!(term, Term::Var(v) if *v == variable))
}

/// The hidden mapping that repairs a mapping, `_fix_m: _fix_m(x, ..) -> RIGHT`.
pub fn fixing_mapping(alloc: Global, mapping: &Mapping) -> Result<Mapping, Memory> {
    let mut numbers = shared_variables(alloc, mapping)?;
    let shared = small(numbers.len());
    for variable in mapping.universal..small(mapping.names.len()) {
        numbers.push(variable)?;
    }
    let mut named = name(alloc, b"_fix_")?.into_vec();
    named.extend_from_slice(mapping.name.as_slice())?;
    Ok(Mapping {
        name: Name::from_vec(named),
        names: names_among(alloc, mapping, &numbers)?,
        universal: shared,
        since: 0,
        left: left_side(alloc, shared)?,
        right: atoms_among(alloc, &mapping.right, &numbers)?,
    })
}

// The count as the number of a variable. It fits: a mapping has fewer variables than there are such numbers.
fn small(count: usize) -> u16 {
    u16::try_from(count).unwrap_or(u16::MAX)
}

// The names of these variables.
fn names_among(alloc: Global, mapping: &Mapping, numbers: &[u16]) -> Result<NameList, Memory> {
    let mut names = NameList::new(alloc);
    for number in numbers {
        if let Some(name) = mapping.names.get(*number as usize) {
            names.push(name.copy(alloc)?)?;
        }
    }
    Ok(names)
}

// The left side with `count` variables, or with the constant 0 if there are none.
fn left_side(alloc: Global, count: u16) -> Result<AtomList, Memory> {
    let mut terms = TermRow::new(alloc);
    for variable in 0..count {
        terms.push(Term::Var(variable))?;
    }
    if count == 0 {
        terms.push(Term::Const(Value::Int(0)))?;
    }
    let mut left = AtomList::new(alloc);
    left.push(Atom {
        relation: FIX,
        terms,
    })?;
    Ok(left)
}

// The atoms, each variable numbered by its place in `numbers`.
fn atoms_among(alloc: Global, atoms: &AtomList, numbers: &[u16]) -> Result<AtomList, Memory> {
    let mut among = AtomList::new(alloc);
    for atom in atoms.as_slice() {
        among.push(atom_among(alloc, atom, numbers)?)?;
    }
    Ok(among)
}

fn atom_among(alloc: Global, atom: &Atom, numbers: &[u16]) -> Result<Atom, Memory> {
    let mut terms = TermRow::new(alloc);
    for term in atom.terms.as_slice() {
        let term = match term {
            Term::Var(variable) => Term::Var(place_among(numbers, *variable)),
            Term::Const(value) => Term::Const(value.copy(alloc)?),
        };
        terms.push(term)?;
    }
    Ok(Atom {
        relation: atom.relation,
        terms,
    })
}

// The place of the variable in `numbers`, from 0; their count if it is not there.
fn place_among(numbers: &[u16], variable: u16) -> u16 {
    let place = numbers.iter().position(|number| *number == variable);
    small(place.unwrap_or(numbers.len()))
}
