//! The mappings that are known to be settled for one of the updates of a core, so that its look need not read its log.
ghost use Rattle.std.specs.Prelude.{◌≡◌, ◌≤◌, List, IfOk};
ghost use Rattle.def_chase.specs.Values.{Fact};
ghost use Rattle.chase_plan.specs.Planned.{HasSettled};
ghost use Rattle.chase_plan.specs.Settled.{AreValidOver};
ghost use Rattle.chase_query.specs.Meanings.{reads_in};

use base_types::Memory;
use chase_eval::Settled;
use chase_plan::{TouchedMappings, stir_since, told_by};
use core_queue::QueuedUpdate;
use std::alloc::Global;
use std::mem;

/// The marks of the update of this number, which were right when its attempt had `made` writes. No update has number 0.
#[derive(Drop)]
pub(crate) struct Known {
    pub(crate) update: u32,
    pub(crate) made: u64,
    pub(crate) marks: Settled,
}

impl Known {
    ghost use Rattle.core_engine.specs.Known.{AreMarksOver};

    /// The marks of no update.
    pub(crate) fn none(alloc: Global) -> Result<Known, Memory>
        ensures none { IfOk result (λ known. known.update ≡ 0) }
    {
        let marks = Settled::none(alloc, 0)?;
        Ok(Known {
            update: 0,
            made: 0,
            marks,
        })
    }

    /// The mappings that are settled for the queued update, by its marks if they are there, and else by its log. Afterwards the
    /// marks are of no update.
    pub(crate) fn take(
        &mut self,
        alloc: Global,
        mappings: &TouchedMappings<'_>,
        item: &QueuedUpdate,
    ) -> Result<Settled, Memory>
        ensures settled { IfOk result (λ settled. (D : List Fact) →
            AreValidOver mappings.now D item.now.program.attempt
            (reads_in item.now.log.items) →
            (self.old.update ≡ item.now.program.attempt.number →
            AreMarksOver mappings.now D item.now self.old) →
            HasSettled mappings.now D item.now.program.attempt settled) }
        ensures none { self.new.update ≡ 0 }
    {
        let update = mem::replace(&mut self.update, 0);
        let program = &item.program;
        if update == item.number() {
            let mut settled = mem::replace(&mut self.marks, Settled::none(alloc, 0)?);
            stir_since(&mut settled, mappings, program, self.made);
            return Ok(settled);
        }
        let settled = told_by(alloc, mappings, program, item.log.as_slice())?;
        Ok(settled)
    }

    /// The number of the update, if the marks are of it; else 0.
    pub(crate) fn number_of(&self, update: u32) -> u32
        ensures known { 1 ≤ result → self.now.update ≡ result }
        ensures update { 1 ≤ result → result ≡ update }
    {
        if self.update == update { update } else { 0 }
    }

    /// Keeps the marks of the update, which are right when its attempt has `made` writes.
    pub(crate) fn keep(&mut self, update: u32, made: u64, marks: Settled)
        ensures update { self.new.update ≡ update }
        ensures made { self.new.made ≡ made }
        ensures marks { self.new.marks ≡ marks }
    {
        self.update = update;
        self.made = made;
        self.marks = marks;
    }
}
