//! Which tuples may decide the first violation of a mapping that own writes caused.
ghost use Rattle.std.specs.Option.{option_copied, option_map};
ghost use Rattle.std.specs.Prelude.{◌≡◌, ◌==◌, map, Some};
ghost use Rattle.std.specs.List.{list_all, list_any};
ghost use Rattle.base_types.specs.Meanings.{change_of, datum_of, fact_of, heading_of, pattern_of, rule_of, slot_of};
ghost use Rattle.def_chase.specs.Mentions.{rule_mentions};
ghost use Rattle.base_types.specs.Contents.{rules_in};
ghost use Rattle.core_conflict.specs.Concerns.{adds as adds_def, agree, at_side as at_side_def, breaks as breaks_def, breaks_some as breaks_some_def, columns, concerns_rule, counts_all as counts_all_def, has_come as has_come_def, is_forward as is_forward_def, joins as joins_def, joins_either as joins_either_def, joins_own as joins_own_def, may_be as may_be_def, may_cause as may_cause_def, may_enact as may_enact_def, may_join as may_join_def, may_make as may_make_def, meets_right as meets_right_def, seats as seats_def, stand_together as stand_together_def};

use crate::concerns::{Sense, tuple_of};
use base_types::{
    Atom, Direction, FORCE_RELATION, Mapping, MappingList, Term, Tuple, Value, Write,
};

/// Whether the tuple may decide which violation of the mapping is the first that the own writes caused in this direction: it
/// joins with one of them, or it is of a relation of the mapping and they put mappings in force.
pub(crate) fn may_decide(
    mapping: Option<&Mapping>,
    direction: Direction,
    own: &[Write],
    tuple: &Tuple,
) -> bool
    ensures { result ≡ concerns_rule (heading_of direction) (map change_of own.now)
        (option_map rule_of (option_copied mapping.entry)) (fact_of tuple.now) }
{
    let Some(mapping) = mapping else {
        return false;
    };
    may_decide_of(mapping, direction, own, tuple)
}

// Whether the tuple may decide the first violation of this mapping that the own writes caused.
fn may_decide_of(mapping: &Mapping, direction: Direction, own: &[Write], tuple: &Tuple) -> bool
    ensures { result ≡ concerns_rule (heading_of direction) (map change_of own.now)
        (Some (rule_of mapping.now)) (fact_of tuple.now) }
{
    if counts_all(direction, own) && is_of(mapping, tuple.relation) {
        return true;
    }
    joins_either(mapping, direction, own, tuple)
}

/// Whether tuples that join with no own write may decide violations as well.
pub(crate) fn counts_all(direction: Direction, own: &[Write]) -> bool
    ensures { result ≡ counts_all_def (heading_of direction) (map change_of own.now) }
{
    match direction {
        Direction::Forward => may_enact_any(own),
        Direction::Backward => false,
    }
}

// Whether a violation that own writes caused may have the tuple on the left, or be met with it on the right.
fn joins_either(mapping: &Mapping, direction: Direction, own: &[Write], tuple: &Tuple) -> bool
    ensures { result ≡ joins_either_def (heading_of direction) (rule_of mapping.now)
        (map change_of own.now) (fact_of tuple.now) }
{
    if at_side(mapping, true, direction, own, tuple) {
        return true;
    }
    at_side(mapping, false, direction, own, tuple)
}

/// Whether the write may make a violation of the mapping that the own writes caused, although there was none before: it breaks
/// the mapping, or its tuple is of a relation of the mapping and they put mappings in force.
pub(crate) fn may_make(
    mapping: Option<&Mapping>,
    direction: Direction,
    own: &[Write],
    sense: Sense,
    write: &Write,
) -> bool
    ensures { result ≡ may_make_def (heading_of direction) (map change_of own.now) sense
        (option_map rule_of (option_copied mapping.entry)) (change_of write.now) }
{
    let Some(mapping) = mapping else {
        return false;
    };
    may_make_of(mapping, direction, own, sense, write)
}

// Whether the write may make a violation of this mapping that the own writes caused, although there was none before.
fn may_make_of(
    mapping: &Mapping,
    direction: Direction,
    own: &[Write],
    sense: Sense,
    write: &Write,
) -> bool
    ensures { result ≡ may_make_def (heading_of direction) (map change_of own.now) sense
        (Some (rule_of mapping.now)) (change_of write.now) }
{
    if counts_all(direction, own) && is_of(mapping, tuple_of(write).relation) {
        return true;
    }
    breaks(mapping, direction, sense, own, write)
}

/// Whether the write may break one of the mappings, with one of the own writes.
pub(crate) fn breaks_some(
    mappings: &MappingList,
    direction: Direction,
    sense: Sense,
    own: &[Write],
    write: &Write,
) -> bool
    ensures { result ≡ breaks_some_def (rules_in mappings.now) (heading_of direction) sense
        (map change_of own.now) (change_of write.now) }
{
    mappings
        .as_slice()
        .iter()
        .any(|mapping| breaks(mapping, direction, sense, own, write))
}

// Whether the write may break the mapping, with one of the own writes. A violation that they cause may have on the left a tuple
// that is there now and was not before. Or a tuple that is gone now may have met it on the right.
fn breaks(
    mapping: &Mapping,
    direction: Direction,
    sense: Sense,
    own: &[Write],
    write: &Write,
) -> bool
    ensures { result ≡ breaks_def (heading_of direction) (rule_of mapping.now) sense
        (map change_of own.now) (change_of write.now) }
{
    at_side(mapping, adds(sense, write), direction, own, tuple_of(write))
}

// Whether the tuple of the write is there now and was not before.
pub(crate) fn adds(sense: Sense, write: &Write) -> bool
    ensures { result ≡ adds_def sense (change_of write.now) }
{
    match write {
        Write::Insert(_) => has_come(sense),
        Write::Delete(_) => !has_come(sense),
    }
}

// Whether the writes came.
fn has_come(sense: Sense) -> bool
    ensures { result ≡ has_come_def sense }
{
    match sense {
        Sense::Came => true,
        Sense::Went => false,
    }
}

// Whether a violation that own writes caused may have the tuple on the left, or on the right be met with it.
fn at_side(
    mapping: &Mapping,
    is_left: bool,
    direction: Direction,
    own: &[Write],
    tuple: &Tuple,
) -> bool
    ensures { result ≡ at_side_def is_left (heading_of direction) (rule_of mapping.now)
        (map change_of own.now) (fact_of tuple.now) }
{
    if is_left {
        return joins_left(mapping, direction, own, tuple);
    }
    meets_right(mapping, direction, own, tuple)
}

// Whether a violation that own writes caused may have the tuple on the left.
fn joins_left(mapping: &Mapping, direction: Direction, own: &[Write], tuple: &Tuple) -> bool
    ensures { result ≡ joins_own_def (heading_of direction) (rule_of mapping.now).left
        (rule_of mapping.now) (map change_of own.now) (fact_of tuple.now) }
{
    joins_own(mapping, direction, mapping.left.as_slice(), own, tuple)
}

// Whether a violation that own writes caused may be met with the tuple on the right.
fn meets_right(mapping: &Mapping, direction: Direction, own: &[Write], tuple: &Tuple) -> bool
    ensures { result ≡ meets_right_def (heading_of direction) (rule_of mapping.now)
        (map change_of own.now) (fact_of tuple.now) }
{
    let atoms = mapping.right.as_slice();
    match direction {
        Direction::Forward => joins_own(mapping, direction, atoms, own, tuple),
        Direction::Backward => stands_in(atoms, tuple.relation),
    }
}

// Whether one of the writes may cause a violation in which the tuple stands at one of the atoms. If none of these atoms is of
// the tuple's relation, none may.
fn joins_own(
    mapping: &Mapping,
    direction: Direction,
    atoms: &[Atom],
    own: &[Write],
    tuple: &Tuple,
) -> bool
    ensures { result ≡ joins_own_def (heading_of direction) (map pattern_of atoms.now)
        (rule_of mapping.now) (map change_of own.now) (fact_of tuple.now) }
{
    if !stands_in(atoms, tuple.relation) {
        return false;
    }
    joins_any(mapping, direction, atoms, own, tuple)
}

// Whether one of the writes may put a mapping in force.
pub(crate) fn may_enact_any(own: &[Write]) -> bool
    ensures { result ≡ list_any may_enact_def (map change_of own.now) }
{
    own.iter().any(|write| may_enact(write))
}

// Whether the write may put a mapping in force.
fn may_enact(write: &Write) -> bool
    ensures { result ≡ may_enact_def (change_of write.now) }
{
    tuple_of(write).relation == FORCE_RELATION
}

// Whether an atom of the mapping is of the relation.
fn is_of(mapping: &Mapping, relation: u16) -> bool
    ensures { result ≡ rule_mentions (Some (rule_of mapping.now)) relation }
{
    if stands_in(mapping.left.as_slice(), relation) {
        return true;
    }
    stands_in(mapping.right.as_slice(), relation)
}

// Whether one of the atoms is of the relation.
pub(crate) fn stands_in(atoms: &[Atom], relation: u16) -> bool
    ensures { result ≡ list_any (λ a. a.relation == relation) (map pattern_of atoms.now) }
{
    atoms.iter().any(|atom| atom.relation == relation)
}

// Whether one of the writes may cause a violation in which the tuple stands at one of the atoms.
fn joins_any(
    mapping: &Mapping,
    direction: Direction,
    atoms: &[Atom],
    own: &[Write],
    tuple: &Tuple,
) -> bool
    ensures { result ≡ joins_own_def (heading_of direction) (map pattern_of atoms.now)
        (rule_of mapping.now) (map change_of own.now) (fact_of tuple.now) }
{
    own.iter()
        .any(|write| joins(mapping, direction, atoms, write, tuple))
}

// Whether the write may cause a violation in which the tuple stands at one of the atoms.
fn joins(
    mapping: &Mapping,
    direction: Direction,
    atoms: &[Atom],
    write: &Write,
    tuple: &Tuple,
) -> bool
    ensures { result ≡ joins_def (heading_of direction) (map pattern_of atoms.now)
        (rule_of mapping.now) (fact_of tuple.now) (change_of write.now) }
{
    if !may_cause(direction, write) {
        return false;
    }
    may_join(seats(mapping, direction), atoms, tuple_of(write), tuple)
}

// Whether the write may cause violations in this direction.
fn may_cause(direction: Direction, write: &Write) -> bool
    ensures { result ≡ may_cause_def (heading_of direction) (change_of write.now) }
{
    match write {
        Write::Insert(_) => is_forward(direction),
        Write::Delete(_) => !is_forward(direction),
    }
}

// Whether the direction is forward.
fn is_forward(direction: Direction) -> bool
    ensures { result ≡ is_forward_def (heading_of direction) }
{
    match direction {
        Direction::Forward => true,
        Direction::Backward => false,
    }
}

// The atoms at one of which stands the own write that caused a violation.
fn seats(mapping: &Mapping, direction: Direction) -> &[Atom]
    ensures { map pattern_of result.now ≡ seats_def (heading_of direction) (rule_of mapping.now) }
{
    match direction {
        Direction::Forward => mapping.left.as_slice(),
        Direction::Backward => mapping.right.as_slice(),
    }
}

// Whether, with the first tuple at one of the seats, the second may stand at one of the atoms.
fn may_join(seats: &[Atom], atoms: &[Atom], own: &Tuple, tuple: &Tuple) -> bool
    ensures { result ≡ may_join_def (map pattern_of seats.now) (map pattern_of atoms.now)
        (fact_of own.now) (fact_of tuple.now) }
{
    seats.iter().any(|atom| joins_at(atom, atoms, own, tuple))
}

// Whether, with the first tuple at this atom, the second may stand at one of the others.
fn joins_at(atom: &Atom, others: &[Atom], own: &Tuple, tuple: &Tuple) -> bool
    ensures { result ≡ list_any (λ c. stand_together_def (pattern_of atom.now)
        (fact_of own.now) c (fact_of tuple.now)) (map pattern_of others.now) }
{
    if !is_at(atom, own) {
        return false;
    }
    joins_among(others, atom, own, tuple)
}

// Whether the tuple is of the atom's relation.
fn is_at(atom: &Atom, tuple: &Tuple) -> bool
    ensures { result ≡ ((pattern_of atom.now).relation == (fact_of tuple.now).relation) }
{
    atom.relation == tuple.relation
}

// Whether, with the first tuple at this atom, the second may stand at one of the others.
fn joins_among(others: &[Atom], atom: &Atom, own: &Tuple, tuple: &Tuple) -> bool
    ensures { result ≡ list_any (λ c. stand_together_def (pattern_of atom.now)
        (fact_of own.now) c (fact_of tuple.now)) (map pattern_of others.now) }
{
    others
        .iter()
        .any(|other| stand_together(atom, own, other, tuple))
}

// Whether one binding may make the first atom the first tuple and the second the second.
fn stand_together(atom: &Atom, own: &Tuple, other: &Atom, tuple: &Tuple) -> bool
    ensures { result ≡ stand_together_def (pattern_of atom.now) (fact_of own.now)
        (pattern_of other.now) (fact_of tuple.now) }
{
    if other.relation != tuple.relation {
        return false;
    }
    if atom.relation != own.relation {
        return false;
    }
    if atom.terms.len() != own.values.len() {
        return false;
    }
    all_agree(atom, own, other, tuple)
}

// Whether no variable that both atoms have stands for two values.
fn all_agree(atom: &Atom, own: &Tuple, other: &Atom, tuple: &Tuple) -> bool
    ensures { result ≡ list_all (λ p. list_all (agree p)
        (columns (pattern_of other.now) (fact_of tuple.now)))
        (columns (pattern_of atom.now) (fact_of own.now)) }
{
    atom.terms
        .as_slice()
        .iter()
        .zip(own.values.as_slice())
        .all(|(term, value)| agrees(term, value, other, tuple))
}

// Whether the term with its value agrees with the other atom, if the tuple stands at that atom.
fn agrees(term: &Term, value: &Value, other: &Atom, tuple: &Tuple) -> bool
    ensures { result ≡ list_all (agree (slot_of term.now, datum_of value.now))
        (columns (pattern_of other.now) (fact_of tuple.now)) }
{
    other
        .terms
        .as_slice()
        .iter()
        .zip(tuple.values.as_slice())
        .all(|(its_term, its_value)| may_be(term, value, its_term, its_value))
}

// Whether one binding may give the two terms these values.
fn may_be(term: &Term, value: &Value, other: &Term, its_value: &Value) -> bool
    ensures { result ≡ may_be_def (slot_of term.now) (datum_of value.now)
        (slot_of other.now) (datum_of its_value.now) }
{
    match term {
        Term::Var(variable) => match other {
            Term::Var(its_variable) => variable != its_variable || value == its_value,
            Term::Const(_) => true,
        },
        Term::Const(_) => true,
    }
}
