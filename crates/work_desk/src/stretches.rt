//! Steps and deliveries that a seat makes inside the lock, several in one turn.
ghost use Rattle.std.specs.Prelude.{◌≡◌, ◌+◌, ◌≤◌, ◌++◌, Some, OnOk, OnErr, vec_len, vec_capacity};
ghost use Rattle.work_desk.specs.Cores.{lowest_idle, lowest_waiting, IsReady, IsStep};
ghost use Rattle.work_desk.specs.Marks.{step_marked};

use crate::board::{Board, Marked};
use crate::cores::Core;
use crate::tickets::Stretch;
use def_memory::Memory;
use def_record::Mark;
use std::alloc::Global;
use std::time::Clock;
use work_loop::Watch;

impl<C: Core> Board<C> {
    ghost use Rattle.work_desk.specs.Shared.{items_of};
    ghost use Rattle.work_desk.specs.Stretches.{MadeDeliveryOn, MadeStepOn, MakesMoveOn, StretchOn};

    /// Makes up to `most` moves for the seat, and at most one while a ticket is out. A move delivers an answer, if one must come
    /// first; otherwise it makes the step of the lowest ready update that is not in flight. It ends early if no move is left or,
    /// if the seat is not alone, after a step that was not small.
    pub(crate) fn stretch<R: Clock>(
        &mut self,
        rt: &R,
        alloc: Global,
        seat: u64,
        most: u64,
        alone: bool,
    ) -> Result<Stretch, Memory>
        ensures over { self.new.over ≡ self.old.over }
        ensures stretch { StretchOn seat self.old self.new result }
    {
        let most = self.at_once(most);
        for made in 0..most {
            match self.move_lowest(rt, alloc, seat, alone)? {
                Some(true) => {}
                Some(false) => {
                    return Ok(Stretch {
                        made: made + 1,
                        more: false,
                    });
                }
                None => return Ok(Stretch { made, more: false }),
            }
        }
        Ok(Stretch {
            made: most,
            more: true,
        })
    }

    // How many of these moves may be made now. While a ticket is out, moves could run ahead of its update and be restarted
    // because of it.
    fn at_once(&self, most: u64) -> u64 {
        if self.busy.is_empty() {
            most
        } else {
            most.min(1)
        }
    }

    // Makes one move: delivers an answer that must come first, or else makes the step of the lowest ready update that is not in
    // flight. The result is `None` if there was no move; else whether the seat may go on: it delivered, it is alone, or the step
    // was small.
    fn move_lowest<R: Clock>(
        &mut self,
        rt: &R,
        alloc: Global,
        seat: u64,
        alone: bool,
    ) -> Result<Option<bool>, Memory>
        ensures over { self.new.over ≡ self.old.over }
        ensures moved { MakesMoveOn seat self.old self.new result }
    {
        if let Some(update) = self.core.first_waiting() {
            self.deliver_first(alloc, seat, update)?;
            return Ok(Some(true));
        }
        let Some(update) = self.core.lowest_idle(self.busy.as_slice()) else {
            return Ok(None);
        };
        let more = self.step_whole(rt, alloc, seat, update, alone)?;
        Ok(Some(more))
    }

    // Delivers an answer to the lowest update that waits for one.
    fn deliver_first(&mut self, alloc: Global, seat: u64, update: u32) -> Result<(), Memory>
        requires waiting { lowest_waiting self.old.over self.old.history ≡ Some update }
        ensures over { self.new.over ≡ self.old.over }
        ensures delivered { OnOk result (MadeDeliveryOn seat self.old self.new) }
        ensures kept { OnErr result (items_of self.new ≡ items_of self.old) }
    {
        self.marks.reserve(self.busy.len() + 1)?;
        self.core.deliver(alloc, update)?;
        self.marks.push_reserved(Marked {
            mark: Mark::Next,
            maker: seat,
        });
        Ok(())
    }

    // Makes the step of the lowest ready update that is not in flight, with the marks of a ticket that is given and returned. The
    // result is whether the seat may go on.
    fn step_whole<R: Clock>(
        &mut self,
        rt: &R,
        alloc: Global,
        seat: u64,
        update: u32,
        alone: bool,
    ) -> Result<bool, Memory>
        requires idle { lowest_idle self.old.over self.old.history self.old.busy ≡ Some update }
        ensures over { self.new.over ≡ self.old.over }
        ensures step { OnOk result (MadeStepOn seat self.old self.new) }
        ensures kept { OnErr result (items_of self.new ≡ items_of self.old) }
    {
        self.marks.reserve(self.busy.len() + 3)?;
        let more = make_step(rt, &mut self.core, alloc, update, alone)?;
        let number = self.given + 1;
        mark_step(&mut self.marks, seat, number, update);
        self.given = number;
        Ok(more)
    }
}

// Makes the update's next step. The result is whether the seat may go on: it is alone, or the step was small, that is, planned
// quickly. It takes no snapshot, since nothing else happens meanwhile.
fn make_step<R: Clock, C: Core>(
    rt: &R,
    core: &mut C,
    alloc: Global,
    update: u32,
    alone: bool,
) -> Result<bool, Memory>
    requires ready { IsReady (C.over core.old) (C.history core.old) update }
    ensures over { C.over core.new ≡ C.over core.old }
    ensures made { OnOk result (IsStep (C.over core.old) (C.history core.old) update
        (C.history core.new)) }
    ensures kept { OnErr result (C.history core.new ≡ C.history core.old) }
{
    let watch = watch_unless(rt, alone);
    let plan = core.next_plan(alloc, update)?;
    let more = goes_on(rt, &watch);
    core.install(alloc, plan)?;
    Ok(more)
}

// A watch that starts now, unless the seat is alone: then nobody waits for the end of its steps.
fn watch_unless<R: Clock>(rt: &R, alone: bool) -> Option<Watch> {
    if alone { None } else { Some(Watch::start(rt)) }
}

// Whether a seat goes on whose step began when this watch was started.
fn goes_on<R: Clock>(rt: &R, watch: &Option<Watch>) -> bool {
    match watch {
        Some(watch) => watch.shows_small(rt),
        None => true,
    }
}

// Marks that the seat was given the ticket `number` for the update, made its step and returned it. There is room for the three
// marks.
fn mark_step(marks: &mut Vec<Marked>, seat: u64, number: u64, update: u32)
    requires room { vec_len marks.old + 3 ≤ vec_capacity marks.old }
    ensures marks { marks.new.items ≡ marks.old.items ++ step_marked seat number update }
    ensures room { vec_capacity marks.new ≡ vec_capacity marks.old }
{
    marks.push_reserved(Marked {
        mark: Mark::Giving(number, update as u64),
        maker: seat,
    });
    marks.push_reserved(Marked {
        mark: Mark::Next,
        maker: seat,
    });
    marks.push_reserved(Marked {
        mark: Mark::Returning(number),
        maker: seat,
    });
}
