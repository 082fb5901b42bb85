//! The mappings of a session, with those that the writes of each relation touch.
ghost use Rattle.std.specs.Prelude.{◌≡◌, map, IfOk};
ghost use Rattle.base_types.specs.Meanings.{change_of, rule_of};
ghost use Rattle.chase_eval.specs.Touching.{IsTouching};
ghost use Rattle.chase_eval.specs.Watched.{LoseMarksTo};

use base_limits::Mappings;
use base_types::{MappingList, Memory, Write};
use chase_eval::{Settled, Touching};
use std::alloc::Global;
use std::marker::Model;

/// The mappings of a session, and for each relation those to which a write of its tuples may give a violation. It is made once
/// for many updates. Contracts see the rules that the mappings stand for.
#[derive(Drop)]
pub struct TouchedMappings<'a> {
    all: Mappings<'a>,
    touching: Touching,
}

impl<'a> Model for TouchedMappings<'a> {
    ghost use Rattle.std.specs.Prelude.{List};
    ghost use Rattle.def_chase.specs.Mappings.{Rule};
    ghost use Rattle.chase_eval.specs.Touching.{IsTouching};

    ghost Value = { List Rule };

    ghost view = { λ m. m.all };

    ghost invariant = { λ m. IsTouching m.all m.touching };
}

impl<'a> TouchedMappings<'a> {
    /// These mappings.
    pub fn of(alloc: Global, mappings: Mappings<'a>) -> Result<TouchedMappings<'a>, Memory>
        ensures rules { IfOk result (λ touched. touched ≡ mappings.entry) }
    {
        let touching = Touching::of(alloc, mappings.list())?;
        Ok(TouchedMappings {
            all: mappings,
            touching,
        })
    }

    /// The mappings.
    pub fn all(&self) -> &Mappings<'a>
        ensures rules { result.now ≡ self.now }
    {
        &self.all
    }

    /// The list of the mappings.
    pub fn list(&self) -> &'a MappingList
        ensures rules { map rule_of result.now.items ≡ self.now }
    {
        self.all.list()
    }

    /// For each relation the mappings to which a write of its tuples may give a violation.
    pub fn touching(&self) -> &Touching
        ensures touching { IsTouching self.now result.now }
    {
        &self.touching
    }

    /// Unsettles the mappings to which one of the writes may give a violation.
    pub fn stir(&self, settled: &mut Settled, writes: &[Write])
        ensures left { LoseMarksTo (map change_of writes.now) self.now settled.old settled.new }
    {
        settled.stir_all(&self.touching, self.all.list(), writes);
    }
}
