//! The checks of a new mapping against the mappings that are there.

ghost use Rattle.std.specs.Prelude.{◌≡◌, length, map};
ghost use Rattle.def_language.specs.Checks.{mappings_full};
ghost use Rattle.def_language.specs.Meaning.{mapping_of};
ghost use Rattle.def_language.specs.Names.{is_one_of};
ghost use Rattle.def_language.specs.Sessions.{added_mappings, mapping_names};
ghost use Rattle.lang_forms.specs.Views.{mapping_of as mapping_written};
ghost use Rattle.lang_schema.specs.Meanings.{session_mapping_of};
ghost use Rattle.lang_checks.specs.Answers.{Gives};

use crate::refusals::TakeRefusal;
use base_limits::{MOST_ADDED_MAPPINGS, MOST_MAPPINGS};
use base_types::{Mapping, Name, TryCopy};
use lang_forms::RawMapping;
use lang_schema::{RawAtoms, Schema, check_added_mapping};
use std::alloc::Global;

/// Whether a mapping has the name. There are at most 64 mappings.
pub(crate) fn has_mapping(mappings: &[Mapping], name: &Name) -> bool
    ensures one { result ≡ is_one_of (mapping_names
        (map session_mapping_of mappings.now)) name.now.items }
{
    mappings.iter().any(|mapping| *name == mapping.name)
}

// The number of the mappings that updates add.
fn added(mappings: &[Mapping]) -> usize
    ensures count { result ≡ length (added_mappings (map session_mapping_of mappings.now)) }
{
    mappings.iter().filter(|mapping| mapping.since != 0).count()
}

/// Whether there is no room for one more mapping, which update `since` adds or, if `since` is 0, is there from the start.
pub(crate) fn mappings_full(mappings: &[Mapping], since: u32) -> bool
    ensures full { result ≡ mappings_full (map session_mapping_of mappings.now) since }
{
    MOST_MAPPINGS <= mappings.len() || since != 0 && MOST_ADDED_MAPPINGS <= added(mappings)
}

/// A mapping over the relations, which update `since` puts in force or, if `since` is 0, is there from the start.
pub(crate) fn mapping_of(
    alloc: Global,
    schema: &Schema,
    since: u32,
    mapping: RawMapping,
) -> Result<Mapping, TakeRefusal>
    ensures checked { Gives session_mapping_of result
        (mapping_of schema.now since (mapping_written mapping)) }
{
    let RawMapping { name, left, right } = mapping;
    let left = RawAtoms {
        name: name.copy(alloc)?,
        atoms: left,
    };
    let right = RawAtoms { name, atoms: right };
    Ok(check_added_mapping(alloc, schema, since, &left, &right)?)
}
