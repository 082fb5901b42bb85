//! The words of atoms and mappings.

ghost use Rattle.std.specs.Prelude.{◌≡◌, ◌∷◌, ◌++◌, IfOk, flat_map, map};
ghost use Rattle.base_types.specs.Meanings.{pattern_of, slot_of};
ghost use Rattle.def_language.specs.Words.{arrow, comma};
ghost use Rattle.def_language.specs.Statements.{Mapping as MappingStatement};
ghost use Rattle.def_language.specs.Grammar.{atom_words, one_word, separated, statement_words, term_word};
ghost use Rattle.def_language.specs.Printing.{name_of, written_atom, written_mapping, written_term};
ghost use Rattle.lang_schema.specs.Meanings.{session_mapping_of};
ghost use Rattle.lang_schema.specs.Pages.{with_word, with_words};

use crate::page::Page;
use crate::schema::Schema;
use base_types::{Atom, Mapping, Memory, Name, Term};

// The name of a variable; the empty name if no variable has the number.
fn name_of(names: &[Name], variable: u16) -> &[u8]
    ensures { result.now ≡ name_of (map (λ n. n.items) names.now) variable }
{
    match names.get(variable as usize) {
        Some(name) => name.as_slice(),
        None => &[],
    }
}

fn with_term(page: Page, names: &[Name], term: &Term) -> Result<Page, Memory>
    ensures { IfOk result (λ p. p ≡ with_word page
        (term_word (written_term (map (λ n. n.items) names.now) (slot_of term.now)))) }
{
    match term {
        Term::Var(variable) => page.name(name_of(names, *variable)),
        Term::Const(value) => page.value(value),
    }
}

#[tactic(auto, using(crate::proofs::Noted::fold_more))]
fn with_other_terms(mut page: Page, names: &[Name], terms: &[Term]) -> Result<Page, Memory>
    ensures { IfOk result (λ p. p ≡ with_words page
        (flat_map (λ t. comma ∷ one_word term_word t)
        (map (written_term (map (λ n. n.items) names.now)) (map slot_of terms.now)))) }
{
    for term in terms {
        page = with_term(page.comma()?, names, term)?;
    }
    Ok(page)
}

fn with_some_terms(
    page: Page,
    names: &[Name],
    first: &Term,
    others: &[Term],
) -> Result<Page, Memory>
    ensures { IfOk result (λ p. p ≡ with_words page
        (separated (one_word term_word) (map (written_term (map (λ n. n.items) names.now))
        (slot_of first.now ∷ map slot_of others.now)))) }
{
    let page = with_term(page, names, first)?;
    with_other_terms(page, names, others)
}

fn with_terms(page: Page, names: &[Name], terms: &[Term]) -> Result<Page, Memory>
    ensures { IfOk result (λ p. p ≡ with_words page
        (separated (one_word term_word) (map (written_term (map (λ n. n.items) names.now))
        (map slot_of terms.now)))) }
{
    match terms {
        [] => Ok(page),
        [first, others @ ..] => with_some_terms(page, names, first, others),
    }
}

fn with_atom(page: Page, schema: &Schema, names: &[Name], atom: &Atom) -> Result<Page, Memory>
    ensures { IfOk result (λ p. p ≡ with_words page
        (atom_words (written_atom schema.now (map (λ n. n.items) names.now)
        (pattern_of atom.now)))) }
{
    let page = page.name(schema.name(atom.relation))?.open()?;
    with_terms(page, names, atom.terms.as_slice())?.close()
}

#[tactic(auto, using(crate::proofs::Noted::fold_more))]
fn with_other_atoms(
    mut page: Page,
    schema: &Schema,
    names: &[Name],
    atoms: &[Atom],
) -> Result<Page, Memory>
    ensures { IfOk result (λ p. p ≡ with_words page
        (flat_map (λ a. comma ∷ atom_words a)
        (map (written_atom schema.now (map (λ n. n.items) names.now))
        (map pattern_of atoms.now)))) }
{
    for atom in atoms {
        page = with_atom(page.comma()?, schema, names, atom)?;
    }
    Ok(page)
}

fn with_some_atoms(
    page: Page,
    schema: &Schema,
    names: &[Name],
    first: &Atom,
    others: &[Atom],
) -> Result<Page, Memory>
    ensures { IfOk result (λ p. p ≡ with_words page
        (separated atom_words (map (written_atom schema.now (map (λ n. n.items) names.now))
        (pattern_of first.now ∷ map pattern_of others.now)))) }
{
    let page = with_atom(page, schema, names, first)?;
    with_other_atoms(page, schema, names, others)
}

fn with_atoms(page: Page, schema: &Schema, names: &[Name], atoms: &[Atom]) -> Result<Page, Memory>
    ensures { IfOk result (λ p. p ≡ with_words page
        (separated atom_words (map (written_atom schema.now (map (λ n. n.items) names.now))
        (map pattern_of atoms.now)))) }
{
    match atoms {
        [] => Ok(page),
        [first, others @ ..] => with_some_atoms(page, schema, names, first, others),
    }
}

// Adds both sides with the arrow between them.
fn with_sides(
    page: Page,
    schema: &Schema,
    names: &[Name],
    left: &[Atom],
    right: &[Atom],
) -> Result<Page, Memory>
    ensures { IfOk result (λ p. p ≡ with_words page
        (separated atom_words (map (written_atom schema.now (map (λ n. n.items) names.now))
        (map pattern_of left.now))
        ++ arrow ∷ separated atom_words
        (map (written_atom schema.now (map (λ n. n.items) names.now))
        (map pattern_of right.now)))) }
{
    let half = with_atoms(page, schema, names, left)?.arrow()?;
    with_atoms(half, schema, names, right)
}

/// Adds the words of a mapping, from the word `mapping` on.
pub fn with_mapping(page: Page, schema: &Schema, mapping: &Mapping) -> Result<Page, Memory>
    ensures words { IfOk result (λ p. p ≡
        with_words page (statement_words (MappingStatement
        (written_mapping schema.now (session_mapping_of mapping.now))))) }
{
    let names = mapping.names.as_slice();
    let left = mapping.left.as_slice();
    let right = mapping.right.as_slice();
    let named = page
        .name(b"mapping")?
        .name(mapping.name.as_slice())?
        .colon()?;
    with_sides(named, schema, names, left, right)
}
