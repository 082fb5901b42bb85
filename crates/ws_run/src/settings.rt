//! The setting of a run.
ghost use Rattle.std.specs.Prelude.{◌≡◌};
ghost use Rattle.ws_lines.specs.Meanings.{source_of};
ghost use Rattle.ws_run.specs.Meanings.{source_or};

use crate::in_force::InForce;
use base_limits::Budget;
use base_types::{List, Mapping};
use ws_lines::Source;

/// The source of each mapping in force, by which the unknowns that it draws get their names.
pub type SourceList = List<Source>;

/// The setting of a run: the update's number; the budget of each op, which is one more than the steps that it may make, so that
/// what the last step drew is known; the mappings in force, each with its source; and, in a repair, the mapping that is repaired.
#[derive(Clone, Copy)]
pub struct Setting<'a> {
    pub number: u32,
    pub budget: Budget,
    pub in_force: &'a InForce<'a>,
    pub sources: &'a SourceList,
    pub fixed: Option<&'a Mapping>,
}

impl<'a> Setting<'a> {
    /// The source of the mapping of this number.
    pub fn source(&self, mapping: u16) -> Source
        ensures source { source_of result ≡ source_or self.now.sources.now.items mapping }
    {
        match self.sources.get(mapping as usize) {
            Some(source) => *source,
            None => Source::Draw,
        }
    }
}
