//! The limits of a session, and whether a name of a relation is taken.

ghost use Rattle.std.specs.Prelude.{◌≡◌, ◌≤◌, MatchOption, true, false};
ghost use Rattle.def_language.specs.Forms.{natural};
ghost use Rattle.def_language.specs.Names.{is_one_of};
ghost use Rattle.def_language.specs.Sessions.{most_answers, most_relations, most_tuples, relation_names};
ghost use Rattle.def_language.specs.Checks.{is_arity};

use base_types::Name;
use lang_schema::Schema;

/// The most relations of a session of the format.
pub(crate) fn most_relations(format: u8) -> u16
    ensures most { result ≡ most_relations format }
    ensures few { result ≤ 128 }
{
    if format == 2 { 128 } else { 64 }
}

/// The most base tuples of a session of the format.
pub(crate) fn most_tuples(format: u8) -> usize
    ensures most { result ≡ most_tuples format }
{
    if format == 2 { 100000 } else { 20000 }
}

/// The most answers of a session of the format.
pub(crate) fn most_answers(format: u8) -> u32
    ensures most { result ≡ most_answers format }
    ensures few { result ≤ 20000 }
{
    if format == 2 { 20000 } else { 10000 }
}

/// The number of columns, if it is from 1 to 8.
pub(crate) fn arity_of(columns: i64) -> Option<u16>
    ensures arity { MatchOption result (is_arity columns ≡ false)
        (λ a. (is_arity columns ≡ true) × (a ≡ natural columns)) }
{
    if 1 <= columns && columns <= 8 {
        return Some(columns as u16);
    }
    None
}

/// Whether a relation has the name.
pub(crate) fn has_relation(schema: &Schema, name: &Name) -> bool
    ensures one { result ≡ is_one_of (relation_names schema.now) name.now.items }
{
    schema.find(name).is_some()
}
