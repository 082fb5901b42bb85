//! The mappings in force during the ops of an update.
ghost use Rattle.std.specs.Prelude.{◌≡◌, ◌≤◌, true, map};
ghost use Rattle.std.specs.List.{AllByRecursion};
ghost use Rattle.def_chase.specs.Mappings.{Rule};
ghost use Rattle.base_types.specs.Meanings.{rule_of};
ghost use Rattle.base_limits.specs.Within.{AreWithin};

use base_limits::Mappings;
use base_types::{Mapping, MappingList, Memory, TryCopy};
use std::alloc::Global;
use ws_lines::{Deed, Source};
use ws_run::{SourceList, drawing_mapping, fixing_mapping, news_of};

/// Mappings, each with its source.
#[derive(Drop)]
pub(crate) struct Active {
    pub mappings: MappingList,
    pub sources: SourceList,
}

/// The mappings in force, in this order, and after them the hidden ones that the update needs.
pub(crate) fn active_for(
    alloc: Global,
    declared: &MappingList,
    in_force: &[u16],
    deed: &Deed,
) -> Result<Active, Memory> {
    let mut active = Active {
        mappings: MappingList::new(alloc),
        sources: SourceList::new(alloc),
    };
    for number in in_force {
        if let Some(mapping) = declared.get(*number as usize) {
            active.add(Source::By(*number), mapping.copy(alloc)?)?;
        }
    }
    if news_of(deed) > 0 {
        active.add(Source::Draw, drawing_mapping(alloc)?)?;
    }
    if let Some((number, mapping)) = fixed(declared, deed) {
        active.add(Source::Fix(number), fixing_mapping(alloc, mapping)?)?;
    }
    Ok(active)
}

// The mapping that the update repairs, with its number; None if the update is no repair.
fn fixed<'a>(declared: &'a MappingList, deed: &Deed) -> Option<(u16, &'a Mapping)> {
    match deed {
        Deed::Fix(number, _) => Some((*number, declared.get(*number as usize)?)),
        _ => None,
    }
}

/// The mapping that the update repairs; None if the update is no repair.
pub(crate) fn fixed_mapping<'a>(declared: &'a MappingList, deed: &Deed) -> Option<&'a Mapping> {
    match fixed(declared, deed) {
        Some((_, mapping)) => Some(mapping),
        None => None,
    }
}

/// The mappings, if they are within the limits: at most 65,536, each with at most 64 existential variables.
pub(crate) fn within(list: &MappingList) -> Option<Mappings<'_>> {
    if !is_within(list) {
        return None;
    }
    Some(Mappings::of(list))
}

fn is_within(list: &MappingList) -> bool
    ensures within { result ≡ true → AreWithin (map rule_of list.now.items) }
{
    if list.len() > 65536 {
        return false;
    }
    are_small(list.as_slice())
}

// Whether each of the mappings has at most 64 existential variables.
fn are_small(mappings: &[Mapping]) -> bool
    ensures small { result ≡ true →
        AllByRecursion (λ (m : Rule). m.existential ≤ 64) (map rule_of mappings.now) }
{
    for mapping in mappings {
        if !is_small(mapping) {
            return false;
        }
    }
    true
}

fn is_small(mapping: &Mapping) -> bool
    ensures small { result ≡ true → (rule_of mapping.now).existential ≤ 64 }
{
    mapping.names.len() <= mapping.universal as usize + 64
}

impl Active {
    fn add(&mut self, source: Source, mapping: Mapping) -> Result<(), Memory> {
        self.mappings.push(mapping)?;
        self.sources.push(source)?;
        Ok(())
    }
}
