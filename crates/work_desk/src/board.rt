//! The value inside a desk's lock.
ghost use Rattle.std.specs.Prelude.{◌≡◌, ℕ, Some, None, IfOk, IfErr};
ghost use Rattle.work_desk.specs.Turns.{least};
ghost use Rattle.work_desk.specs.Flights.{left_of};

use crate::cores::Core;
use crate::tickets::{Finished, Next, Ticket};
use core_entries::Entry;
use def_memory::Memory;
use def_record::{Item, Mark};
use std::alloc::Global;
use std::marker::Model;
use work_lock::Grows;

/// What a core's history is over. It exists in contracts alone.
pub struct Over<C: Core> {
    core: C,
}

impl<C: Core> Model for Over<C> {
    ghost use Rattle.def_history.specs.Cores.{Ground};

    ghost Value = { Ground };

    ghost view = { λ o. C.over o.core };
}

/// An entry of a core's history as plain data. It exists in contracts alone.
pub struct Told {
    entry: Entry,
}

impl Model for Told {
    ghost use Rattle.def_history.specs.PlainEntries.{PlainEntry};
    ghost use Rattle.core_entries.specs.Meanings.{entry_of};

    ghost Value = { PlainEntry };

    ghost view = { λ t. entry_of t.entry };
}

/// A mark, and the seat that made it.
#[derive(Drop)]
pub struct Marked {
    pub(crate) mark: Mark,
    pub(crate) maker: u64,
}

/// What the seats of a desk share: the core, how many entries its history had at the opening, the marks made since, the
/// updates in flight, and how many tickets were given. There is room for the return of each ticket that is out.
pub struct Board<C: Core> {
    pub(crate) core: C,
    opened: u64,
    pub(crate) marks: Vec<Marked>,
    pub(crate) busy: Vec<u32>,
    pub(crate) given: u64,
}

impl<C: Core> Model for Board<C> {
    ghost use Rattle.std.specs.Prelude.{◌+◌, ◌≤◌, vec_len, vec_capacity};
    ghost use Rattle.work_desk.specs.Shared.{Shared, IsShared};
    ghost use Rattle.work_desk.specs.Marks.{shared};

    ghost Value = { Shared };

    ghost view = { λ b.
        shared (C.over b.core) (C.history b.core) b.opened b.marks.items b.busy.items b.given };

    ghost invariant = { λ b.
        IsShared (shared (C.over b.core) (C.history b.core) b.opened b.marks.items b.busy.items
        b.given)
        × (vec_len b.marks + vec_len b.busy ≤ vec_capacity b.marks) };
}

impl<C: Core> Grows for Board<C> {
    ghost use Rattle.work_desk.specs.Shared.{items_of};

    type Entry = Item<Over<C>, Told>;

    ghost entries = { items_of };

    fn length(&self) -> u64 {
        self.opened + 1 + self.marks.len() as u64
    }
}

impl<C: Core> Board<C> {
    ghost use Rattle.def_history.specs.Cores.{IsLegalOver};
    ghost use Rattle.work_desk.specs.Shared.{items_of, opening_items, IsShared};
    ghost use Rattle.work_desk.specs.Cores.{lowest_idle, lowest_waiting};
    ghost use Rattle.work_desk.specs.Tickets.{IsPlanFor, IfGiven, IsOutOn, NextOn, WaitsOn, StepOn};
    ghost use Rattle.work_desk.specs.Tickets.{FinishOn, BackOn};

    /// A board over the core, with no ticket given.
    pub(crate) fn new(alloc: Global, core: C) -> Board<C>
        ensures over { result.over ≡ C.over core }
        ensures history { result.history ≡ C.history core }
        ensures items { items_of result ≡ opening_items (C.over core) (C.history core) }
        ensures legal { IsLegalOver (C.over core) (C.history core) }
    {
        Board {
            opened: core.length(),
            core,
            marks: Vec::new(alloc),
            busy: Vec::new(alloc),
            given: 0,
        }
    }

    /// Ends the board and gives its core.
    pub(crate) fn into_core(self) -> C
        ensures over { C.over result ≡ self.over }
        ensures history { C.history result ≡ self.history }
        ensures shared { IsShared self }
    {
        let Board {
            core,
            opened: _,
            marks: _,
            busy: _,
            given: _,
        } = self;
        core
    }

    /// Does nothing. Its contract says that a board is always the board of a desk.
    pub(crate) fn known(&self)
        ensures shared { IsShared self.now }
    {
        let _ = &self.core;
    }

    /// The first work that there is for the seat: a ticket, a delivery, nothing now, or nothing any more.
    pub(crate) fn next(
        &mut self,
        alloc: Global,
        seat: u64,
    ) -> Result<Next<Ticket<C::Snapshot>>, Memory>
        ensures over { self.new.over ≡ self.old.over }
        ensures next { NextOn seat self.old self.new result }
        ensures ticket { IfOk result (IfGiven (IsOutOn C.is_snapshot self.new seat)) }
    {
        if let Some(update) = self.core.lowest_idle(self.busy.as_slice()) {
            return self.give(alloc, seat, update);
        }
        if let Some(update) = self.core.lowest_waiting() {
            return self.deliver(alloc, seat, update);
        }
        Ok(self.wait())
    }

    // A ticket for the lowest update that is ready and not in flight, with room for its return.
    fn give(
        &mut self,
        alloc: Global,
        seat: u64,
        update: u32,
    ) -> Result<Next<Ticket<C::Snapshot>>, Memory>
        requires idle { lowest_idle self.old.over self.old.history self.old.busy ≡ Some update }
        ensures over { self.new.over ≡ self.old.over }
        ensures next { NextOn seat self.old self.new result }
        ensures ticket { IfOk result (IfGiven (IsOutOn C.is_snapshot self.new seat)) }
    {
        self.marks.reserve(self.busy.len() + 2)?;
        self.busy.reserve(1)?;
        let snapshot = self.core.snapshot(alloc, update)?;
        let stamp = self.core.length();
        let number = self.given + 1;
        self.marks.push_reserved(Marked {
            mark: Mark::Giving(number, update as u64),
            maker: seat,
        });
        self.busy.push_reserved(update);
        self.given = number;
        Ok(Next::Ticket(Ticket {
            number,
            update,
            stamp,
            snapshot,
        }))
    }

    // Delivers an answer to the lowest update that waits for one, if no ticket can be given.
    fn deliver(
        &mut self,
        alloc: Global,
        seat: u64,
        update: u32,
    ) -> Result<Next<Ticket<C::Snapshot>>, Memory>
        requires none { lowest_idle self.old.over self.old.history self.old.busy ≡ None }
        requires waiting { lowest_waiting self.old.over self.old.history ≡ Some update }
        ensures over { self.new.over ≡ self.old.over }
        ensures next { NextOn seat self.old self.new result }
        ensures ticket { IfOk result (IfGiven (IsOutOn C.is_snapshot self.new seat)) }
    {
        self.marks.reserve(self.busy.len() + 1)?;
        self.core.deliver(alloc, update)?;
        self.marks.push_reserved(Marked {
            mark: Mark::Next,
            maker: seat,
        });
        Ok(Next::Delivered { update })
    }

    // If there is neither a ticket to give nor a delivery to make: whether a ticket is out.
    fn wait(&self) -> Next<Ticket<C::Snapshot>>
        requires none { lowest_idle self.now.over self.now.history self.now.busy ≡ None }
        requires quiet { lowest_waiting self.now.over self.now.history ≡ None }
        ensures next { WaitsOn self.now result }
        ensures ticket { (seat : ℕ) → IfGiven (IsOutOn C.is_snapshot self.now seat) result }
    {
        match lowest(self.busy.as_slice()) {
            Some(in_flight) => Next::Idle { in_flight },
            None => Next::Quiet,
        }
    }

    /// Takes the ticket back from the seat that has it.
    pub(crate) fn give_back(&mut self, seat: u64, ticket: Ticket<C::Snapshot>)
        requires out { IsOutOn C.is_snapshot self.old seat ticket }
        ensures over { self.new.over ≡ self.old.over }
        ensures back { BackOn seat self.old self.new ticket }
    {
        let Ticket {
            number,
            update,
            stamp: _,
            snapshot,
        } = ticket;
        C::drop_snapshot(snapshot);
        self.marks.push_reserved(Marked {
            mark: Mark::Returning(number),
            maker: seat,
        });
        leave(&mut self.busy, update);
    }

    /// Makes the step of the plan, unless an entry since the ticket was given makes the plan stale. In both cases the ticket is
    /// spent. If memory runs out, the ticket comes back and is still out.
    pub(crate) fn finish(
        &mut self,
        alloc: Global,
        seat: u64,
        ticket: Ticket<C::Snapshot>,
        plan: C::Plan,
    ) -> Result<Finished, (Ticket<C::Snapshot>, Memory)>
        requires out { IsOutOn C.is_snapshot self.old seat ticket }
        requires plan { IsPlanFor C.is_snapshot C.is_plan ticket plan }
        ensures over { self.new.over ≡ self.old.over }
        ensures finish { FinishOn (C.stale_since plan) (C.is_plan plan) seat self.old self.new
            ticket result }
        ensures out { IfErr result (λ e. IsOutOn C.is_snapshot self.new seat e.0) }
        ensures same { IfErr result (λ e. e.0 ≡ ticket) }
    {
        if let Some(entry) = self.core.stale_by(&plan, ticket.stamp) {
            C::drop_plan(plan);
            self.give_back(seat, ticket);
            return Ok(Finished::Stale { entry });
        }
        match self.step(alloc, seat, &ticket, plan) {
            Ok(entry) => {
                let Ticket {
                    number: _,
                    update: _,
                    stamp: _,
                    snapshot,
                } = ticket;
                C::drop_snapshot(snapshot);
                Ok(Finished::Stepped { entry })
            }
            Err(memory) => Err((ticket, memory)),
        }
    }

    // Makes the step of the plan, and marks the ticket as returned. The result is the number of the entry.
    fn step(
        &mut self,
        alloc: Global,
        seat: u64,
        ticket: &Ticket<C::Snapshot>,
        plan: C::Plan,
    ) -> Result<u64, Memory>
        requires out { IsOutOn C.is_snapshot self.old seat ticket.now }
        requires plan { C.is_plan plan self.old.over self.old.history ticket.now.update }
        ensures over { self.new.over ≡ self.old.over }
        ensures step { StepOn seat self.old self.new ticket.now result }
        ensures kept { IfErr result (λ _. items_of self.new ≡ items_of self.old) }
    {
        if let Err(memory) = self.marks.reserve(self.busy.len() + 2) {
            C::drop_plan(plan);
            return Err(memory.into());
        }
        self.core.install(alloc, plan)?;
        self.marks.push_reserved(Marked {
            mark: Mark::Next,
            maker: seat,
        });
        self.marks.push_reserved(Marked {
            mark: Mark::Returning(ticket.number),
            maker: seat,
        });
        leave(&mut self.busy, ticket.update);
        Ok(self.core.length())
    }
}

// The least of these numbers.
fn lowest(numbers: &[u32]) -> Option<u32>
    ensures { result ≡ least None numbers.now }
{
    let mut low: Option<u32> = None;
    for number in numbers {
        low = Some(match low {
            None => *number,
            Some(least_yet) => least_yet.min(*number),
        });
    }
    low
}

// Removes the update from those in flight.
fn leave(busy: &mut Vec<u32>, update: u32)
    ensures left { busy.new.items ≡ left_of update busy.old.items }
{
    busy.retain(|other| *other != update);
}
