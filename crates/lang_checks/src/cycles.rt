//! The test for plain cycles: a table of which relations lead to which, closed step by step.

ghost use Rattle.std.specs.Prelude.{◌≡◌, ℕ, ◌<◌, ◌≤◌, ◌&&◌, ◌||◌, ◌==◌, Bool, IfOk, [], ◌∷◌, ◌++◌, map, length, suc};
ghost use Rattle.std.specs.List.{list_any, range_with_len};
ghost use Rattle.base_types.specs.Meanings.{pattern_of, rule_of, slot_of};
ghost use Rattle.def_language.specs.Cycles.{has_plain_cycle, is_plain, is_plain_slot, leads, stands_left, stands_plain, through};
ghost use Rattle.def_language.specs.Checks.{rules_of};
ghost use Rattle.lang_schema.specs.Meanings.{session_mapping_of};
ghost use Rattle.lang_checks.specs.Tables.{among, IsTableOf, widened};

use crate::relations::RelationSet;
use base_types::{Atom, Mapping, Memory, Term};
use std::alloc::Global;

// Whether the term is not an existential variable of a mapping with `universal` universal ones.
fn is_plain_slot(universal: u16, term: &Term) -> bool
    ensures plain { result ≡ is_plain_slot universal (slot_of term.now) }
{
    match term {
        Term::Var(variable) => *variable < universal,
        Term::Const(_) => true,
    }
}

// Whether the atom has no existential variable.
fn is_plain(universal: u16, atom: &Atom) -> bool
    ensures plain { result ≡ is_plain universal (pattern_of atom.now) }
{
    atom.terms
        .as_slice()
        .iter()
        .all(|term| is_plain_slot(universal, term))
}

// Whether an atom of the relation stands on the left of the mapping.
fn stands_left(relation: u16, mapping: &Mapping) -> bool
    ensures stands { result ≡ stands_left relation (rule_of mapping.now) }
{
    mapping
        .left
        .as_slice()
        .iter()
        .any(|atom| atom.relation == relation)
}

// The set, with the atom's relation if the atom is plain.
fn with_plain(set: RelationSet, universal: u16, atom: &Atom) -> RelationSet
    ensures with { (s : ℕ) → s < 128 → among result s ≡
        (among set s || ((atom.now.relation == s) && is_plain universal (pattern_of atom.now))) }
{
    if is_plain(universal, atom) {
        return set.with(atom.relation);
    }
    set
}

// The relations of the plain atoms on the right of the mapping.
fn plain_right(mapping: &Mapping) -> RelationSet
    ensures stand { (s : ℕ) → s < 128 → among result s ≡ stands_plain s (rule_of mapping.now) }
{
    let mut found = RelationSet::empty();
    for atom in mapping.right.as_slice() {
        found = with_plain(found, mapping.universal, atom);
    }
    found
}

// The set, with the relations to which the relation leads by the mapping.
fn led_by(set: RelationSet, relation: u16, mapping: &Mapping) -> RelationSet
    ensures led { (s : ℕ) → s < 128 → among result s ≡
        (among set s || (stands_left relation (rule_of mapping.now) &&
        stands_plain s (rule_of mapping.now))) }
{
    if stands_left(relation, mapping) {
        return set.joined(plain_right(mapping));
    }
    set
}

// The relations to which the relation leads by the mappings and `last`.
fn led_to(relation: u16, mappings: &[Mapping], last: &Mapping) -> RelationSet
    ensures led { (s : ℕ) → s < 128 → among result s ≡
        leads (map rule_of mappings.now ++ rule_of last.now ∷ []) relation s }
{
    let mut found = RelationSet::empty();
    for mapping in mappings {
        found = led_by(found, relation, mapping);
    }
    led_by(found, relation, last)
}

// The table of the relations to which each relation leads.
fn table_of(
    alloc: Global,
    relations: u16,
    mappings: &[Mapping],
    last: &Mapping,
) -> Result<Vec<RelationSet>, Memory>
    ensures table { IfOk result (λ rows. IsTableOf
        (leads (map rule_of mappings.now ++ rule_of last.now ∷ [])) rows.items) }
    ensures whole { IfOk result (λ rows. length rows.items ≡ relations) }
{
    let mut rows = Vec::new(alloc);
    for relation in 0..relations {
        rows.push(led_to(relation, mappings, last))?;
    }
    Ok(rows)
}

// The row, together with `middle`, the relations to which `between` leads, if the row has `between`.
fn widened(middle: RelationSet, between: u16, row: RelationSet) -> RelationSet
    requires { between < 128 }
    ensures widened { result ≡ widened middle between row }
{
    if row.has(between) {
        return row.joined(middle);
    }
    row
}

// Widens each row by the ways through the relation `between`.
fn widen(rows: &mut [RelationSet], between: u16)
    requires few { between < 128 }
    requires there { between < length rows.old }
    ensures closed { (edge : ℕ → ℕ → Bool) → IsTableOf (through edge between) rows.old →
        IsTableOf (through edge (suc between)) rows.new }
    ensures length { length rows.new ≡ length rows.old }
{
    let middle = rows[between as usize];
    for place in 0..rows.len() {
        rows[place] = widened(middle, between, rows[place]);
    }
}

// Whether some relation is in its own row.
fn goes_round(rows: &[RelationSet]) -> bool
    requires { length rows.now ≤ 128 }
    ensures round { (edge : ℕ → ℕ → Bool) → IsTableOf edge rows.now →
        result ≡ list_any (λ r. edge r r) (range_with_len 0 (length rows.now)) }
{
    for place in 0..rows.len() {
        if rows[place].has(place as u16) {
            return true;
        }
    }
    false
}

/// Whether the mappings over `relations` relations have a plain cycle together with `last`. It takes some kilobytes of memory.
pub(crate) fn has_plain_cycle(
    alloc: Global,
    relations: u16,
    mappings: &[Mapping],
    last: &Mapping,
) -> Result<bool, Memory>
    requires few { relations ≤ 128 }
    ensures cycle { IfOk result (λ cycle. cycle ≡
        has_plain_cycle relations (rules_of (map session_mapping_of mappings.now ++
        session_mapping_of last.now ∷ []))) }
{
    let mut rows = table_of(alloc, relations, mappings, last)?;
    for between in 0..relations {
        widen(&mut rows, between);
    }
    Ok(goes_round(&rows))
}
