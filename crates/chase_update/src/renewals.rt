//! Further attempts at an update.
ghost use Rattle.std.specs.Prelude.{◌≡◌, ◌+◌, ◌<◌, ◌^◌, suc, None, IfOk};
ghost use Rattle.def_steps.specs.Attempts.{begun};

use crate::attempts::Attempt;
use base_types::{Memory, TryCopy};
use std::alloc::Global;

impl Attempt {
    /// The attempt's number.
    pub fn attempt(&self) -> u32
        ensures attempt { result ≡ self.now.attempt.attempt }
    {
        self.parts.attempt
    }

    /// The next attempt at the same update, at its start.
    pub fn begun_again(&self, alloc: Global) -> Result<Attempt, Memory>
        requires more { self.now.attempt.attempt + 1 < 2 ^ 32 }
        ensures begun { IfOk result
            (λ made. made ≡ record {
              attempt = begun self.now.attempt.number
                  (suc self.now.attempt.attempt) self.now.attempt.operation;
              reading = None;
            }) }
    {
        let operation = self.parts.operation.copy(alloc)?;
        Attempt::at_start(alloc, self.parts.number, self.parts.attempt + 1, operation)
    }
}
