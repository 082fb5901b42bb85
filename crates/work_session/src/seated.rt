//! The core of a session as a desk uses it.
ghost use Rattle.std.specs.Prelude.{◌≡◌};

use base_types::Memory;
use core_engine::{Core, Plan, Snapshot};
use std::alloc::Global;
use std::marker::Model;
use work_stale::stale_by;

/// A core, and when it delivers answers. Contracts see what its history is over, and the entries of that history.
#[derive(Drop)]
pub struct Seated<'s> {
    core: Core<'s>,
    answers: Answers,
}

/// When a seat that makes several moves in one turn delivers an answer.
#[derive(Clone, Copy)]
pub enum Answers {
    /// To the first update that is not committed, as soon as it waits for one: then the updates above it restart less often.
    AtOnce,
    /// If no step can be made, as for a seat that asks for a ticket.
    Last,
}

impl<'s> Model for Seated<'s> {
    ghost use Rattle.core_engine.specs.States.{State};

    ghost Value = { State };

    ghost view = { λ c. c.core };
}

impl<'s> Seated<'s> {
    /// The core, at which a desk delivers answers at these times.
    pub fn new(core: Core<'s>, answers: Answers) -> Seated<'s>
        ensures core { result ≡ core.entry }
    {
        Seated { core, answers }
    }

    /// The core alone.
    pub fn into_core(self) -> Core<'s>
        ensures core { result ≡ self.entry }
    {
        let Seated { core, answers: _ } = self;
        core
    }
}

impl<'s> work_desk::Core for Seated<'s> {
    ghost use Rattle.work_session.specs.Steps.{IsStepOf, plan_stale_by};

    type Snapshot = Snapshot<'s>;

    type Plan = Plan;

    ghost over = { λ c. c.over };

    ghost history = { λ c. c.history };

    ghost is_snapshot = { IsStepOf };

    ghost is_plan = { IsStepOf };

    ghost stale_since = { plan_stale_by };

    fn drop_snapshot(snapshot: Snapshot<'s>) {
        drop(snapshot);
    }

    fn drop_plan(plan: Plan) {
        drop(plan);
    }

    fn length(&self) -> u64 {
        self.core.is_legal();
        self.core.history().len() as u64
    }

    fn lowest_idle(&self, busy: &[u32]) -> Option<u32> {
        self.core.lowest_ready_besides(busy)
    }

    fn lowest_waiting(&self) -> Option<u32> {
        self.core.lowest_deliverable()
    }

    fn first_waiting(&self) -> Option<u32> {
        match self.answers {
            Answers::AtOnce => self.core.next_deliverable(),
            Answers::Last => None,
        }
    }

    fn deliver(&mut self, _alloc: Global, update: u32) -> Result<(), Memory> {
        self.core.make_delivery(update)?;
        Ok(())
    }

    fn snapshot(&self, alloc: Global, update: u32) -> Result<Snapshot<'s>, Memory> {
        self.core.snapshot(alloc, update)
    }

    fn plan(alloc: Global, snapshot: &Snapshot<'s>) -> Result<Plan, Memory> {
        snapshot.plan(alloc)
    }

    fn next_plan(&mut self, alloc: Global, update: u32) -> Result<Plan, Memory> {
        let plan = self.core.next_plan(alloc, update)?;
        Ok(plan)
    }

    fn stale_by(&self, plan: &Plan, since: u64) -> Option<u64> {
        self.core.is_legal();
        let mappings = self.core.mappings();
        let history = self.core.history();
        stale_by(mappings, history, plan.update(), plan.reads(), since)
    }

    fn install(&mut self, alloc: Global, plan: Plan) -> Result<(), Memory> {
        self.core.install(alloc, plan)?;
        Ok(())
    }
}
