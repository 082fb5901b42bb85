//! A desk over a core, played to its end.
ghost use Rattle.std.specs.Prelude.{◌≡◌, map};
ghost use Rattle.work_lock.specs.Seats.{place_of};
ghost use Rattle.try_desk.specs.Hands.{IsTable, seats_on};

use crate::leads::Lead;
use crate::tables::Table;
use std::alloc::Global;
use std::sync::Wait;
use try_cases::CaseRefusal;
use work_desk::{Core, Desk};

// More calls than any desk of a session has, if every seat may go on.
const MOST_CALLS: u32 = 1_000_000;

/// Lets the seats of a desk over the core come as the lead says, and gives the core. An error if memory runs out, or if the lead
/// has an error or no end.
pub fn play<R: Wait, C: Core, L: Lead>(
    rt: &R,
    alloc: Global,
    core: C,
    lead: &mut L,
) -> (C, Result<(), CaseRefusal>)
    ensures over { C.over result.0 ≡ C.over core }
{
    let Ok(room) = Vec::with_capacity(alloc, 3) else {
        return (core, Err(CaseRefusal::Memory));
    };
    let (desk, seats) = match Desk::new(alloc, core, 3) {
        Ok(opened) => opened,
        Err((core, _)) => return (core, Err(CaseRefusal::Memory)),
    };
    let (table, result) = led(rt, &desk, Table::of(&desk, seats), lead);
    let seats = table.into_seats(rt, &desk, room);
    (desk.close(seats), result)
}

// Makes the calls that the lead says.
fn led<R: Wait, C: Core, L: Lead>(
    rt: &R,
    desk: &Desk<C>,
    mut table: Table<C>,
    lead: &mut L,
) -> (Table<C>, Result<(), CaseRefusal>)
    requires own { IsTable C.over C.history C.is_snapshot C.is_plan desk.now table }
    ensures own { IsTable C.over C.history C.is_snapshot C.is_plan desk.now result.0 }
    ensures places { map place_of (seats_on result.0) ≡ map place_of (seats_on table) }
{
    for _ in 0..MOST_CALLS {
        let due = table.due();
        let turn = match lead.next(due) {
            Ok(Some(turn)) => turn,
            Ok(None) => return (table, Ok(())),
            Err(refusal) => return (table, Err(refusal)),
        };
        let (next, told) = table.go(rt, desk, turn.side, turn.call);
        table = next;
        if let Err(refusal) = lead.hear(turn, told) {
            return (table, Err(refusal));
        }
    }
    (table, Err(CaseRefusal::Endless))
}
