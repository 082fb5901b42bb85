//! The first violation in the base of a session.
ghost use Rattle.std.specs.Prelude.{◌≡◌, map, option_map, IfOk};
ghost use Rattle.lang_schema.specs.Meanings.{session_mapping_of};
ghost use Rattle.lang_session.specs.Meanings.{session_of};
ghost use Rattle.lang_session.specs.Base.{base_violation, first_violated, violated_by};
ghost use Rattle.run_base.specs.Meanings.{violated_of};

use base_types::{Facts, Mapping, Memory, TupleList};
use chase_violation::{Scope, first_violation};
use lang_session::Session;
use set_facts::IndexedFacts;
use std::alloc::Global;

/// A mapping that the base violates, and the image of its first violation there.
#[derive(Drop)]
pub struct Violated<'a> {
    /// The mapping.
    pub mapping: &'a Mapping,
    /// The tuples of the image, in the order of the mapping's left side.
    pub image: TupleList,
}

// The first violation of the mapping, if it is in force from the start.
fn violated_by<'a, F: Facts>(
    alloc: Global,
    base: &F,
    mapping: &'a Mapping,
) -> Result<Option<Violated<'a>>, Memory>
    ensures { IfOk result (λ found. option_map violated_of found ≡
        violated_by (F.tuples base.now) (session_mapping_of mapping.now)) }
{
    if mapping.since != 0 {
        return Ok(None);
    }
    match first_violation(alloc, mapping, base, Scope::All)? {
        Some(matched) => Ok(Some(Violated {
            mapping,
            image: matched.image,
        })),
        None => Ok(None),
    }
}

// The first violation of the first mapping that has one.
fn first_violated<'a, F: Facts>(
    alloc: Global,
    base: &F,
    mappings: &'a [Mapping],
) -> Result<Option<Violated<'a>>, Memory>
    ensures { IfOk result (λ found. option_map violated_of found ≡
        first_violated (F.tuples base.now) (map session_mapping_of mappings.now)) }
{
    for mapping in mappings {
        if let Some(violated) = violated_by(alloc, base, mapping)? {
            return Ok(Some(violated));
        }
    }
    Ok(None)
}

/// Finds the first violation in the session's base, which is given as a set of tuples: the one of the first violated mapping in
/// force from the start.
pub fn base_violation<'a>(
    alloc: Global,
    session: &'a Session,
    base: &IndexedFacts,
) -> Result<Option<Violated<'a>>, Memory>
    requires base { base.now ≡ (session_of session.now).base }
    ensures violation { IfOk result (λ found. option_map violated_of found ≡
        base_violation (session_of session.now)) }
{
    first_violated(alloc, base, session.mappings.as_slice())
}
