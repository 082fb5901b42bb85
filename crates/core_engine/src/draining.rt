//! A drain: turns until the core is quiet, each a step of the lowest ready update, else a delivery to the lowest that can have
//! one.
ghost use Rattle.std.specs.Prelude.{◌≡◌, true, IfOk, OnOk, OnErr};
ghost use Rattle.core_engine.specs.States.{is_quiet_at};
ghost use Rattle.core_engine.specs.Drained.{HasTurned, HasMadeTurn};

use crate::cores::Core;
use base_types::Memory;
use std::alloc::Global;

impl<'s> Core<'s> {
    /// Makes turns until nothing is ready and nothing can be delivered. Each is a step of the lowest ready update, else a
    /// delivery to the lowest update that can have one. On an error the turns made before it stay.
    pub fn drain(&mut self, alloc: Global) -> Result<(), Memory>
        ensures turned { HasTurned self.old self.new }
        ensures quiet { OnOk result (is_quiet_at self.new ≡ true) }
    {
        'turns: loop {
            if !self.turn(alloc)? {
                return Ok(());
            }
        }
    }

    // Makes the next turn, if there is one. On an error nothing is changed.
    fn turn(&mut self, alloc: Global) -> Result<bool, Memory>
        ensures made { IfOk result (λ made. HasMadeTurn made self.old self.new) }
        ensures kept { OnErr result (self.new ≡ self.old) }
    {
        self.is_legal();
        if let Some(update) = self.lowest_ready() {
            self.make_step(alloc, update)?;
            return Ok(true);
        }
        if let Some(update) = self.lowest_deliverable() {
            self.make_delivery(update)?;
            return Ok(true);
        }
        Ok(false)
    }
}
