//! The mappings in force during the ops of an update.
ghost use Rattle.std.specs.Prelude.{◌≡◌, IfOk};
ghost use Rattle.base_types.specs.Meanings.{heading_of};
ghost use Rattle.chase_eval.specs.Watched.{watched_from};

use base_limits::Mappings;
use base_types::{Direction, Memory};
use chase_eval::{Touching, WatchedView};
use set_facts::IndexedFacts;
use std::alloc::Global;
use std::marker::Model;

/// Mappings in force, and for each relation the mappings with an atom of it. Contracts see their rules.
#[derive(Drop)]
pub struct InForce<'a> {
    mappings: Mappings<'a>,
    touching: Touching,
}

impl<'a> Model for InForce<'a> {
    ghost use Rattle.std.specs.Prelude.{List};
    ghost use Rattle.def_chase.specs.Mappings.{Rule};
    ghost use Rattle.chase_eval.specs.Touching.{IsTouching};

    ghost Value = { List Rule };

    ghost view = { λ f. f.mappings };

    ghost invariant = { λ f. IsTouching f.mappings f.touching };
}

impl<'a> InForce<'a> {
    /// Puts these mappings in force.
    pub fn of(alloc: Global, mappings: Mappings<'a>) -> Result<InForce<'a>, Memory>
        ensures rules { IfOk result (λ in_force. in_force ≡ mappings.entry) }
    {
        let touching = Touching::of(alloc, mappings.list())?;
        Ok(InForce { mappings, touching })
    }

    /// The mappings by number.
    pub fn mappings(&self) -> &Mappings<'a>
        ensures rules { result.now ≡ self.now }
    {
        &self.mappings
    }

    /// The tuples as an update that repairs in this direction sees them before its first write.
    pub(crate) fn view<'b>(
        &'b self,
        alloc: Global,
        facts: &'b IndexedFacts,
        direction: Direction,
    ) -> Result<WatchedView<'b, IndexedFacts>, Memory>
        ensures before { IfOk result (λ view. view ≡
            watched_from self.now (heading_of direction) facts.now) }
    {
        let mappings = self.mappings.list();
        WatchedView::with(alloc, facts, mappings, direction, &self.touching)
    }
}
