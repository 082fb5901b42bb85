// The lock, and its turns.
ghost use Rattle.std.specs.Prelude.{◌≡◌};

use crate::history::Grows;
use crate::pause::Pause;
use crate::plays::{Count, Look, Pass, Take};
use crate::seat::{Seat, Turn};
use crate::view::{Turns, View};
use atomic_table::Table;
use std::alloc::Global;
use std::snapshot::Snapshot;
use std::sync::Wait;

// The table's words: how many turns were given, how many were passed, and the length of the history. Its one slot holds the
// value.
pub(crate) const GIVEN: usize = 0;

pub(crate) const PASSED: usize = 1;

pub(crate) const LENGTH: usize = 2;

pub(crate) const HOME: usize = 0;

/// A value that seats take turns at. Turns are served in the order in which they were asked for.
pub struct StampLock<V: Grows> {
    pub(crate) table: Table<Option<V>, View<V::Entry>, Snapshot<V>, Turns, Global>,
    ghost wide: { (table.shared.table_id.words ≡ 3) × (table.shared.table_id.slots ≡ 1) },
}

impl<V: Grows> StampLock<V> {
    ghost use Rattle.def_record.specs.Makers.{Follows, Extends};
    ghost use Rattle.work_lock.specs.Lock.{lock_id};
    ghost use Rattle.work_lock.specs.Seats.{lock_of, number_of, place_of, seen_of, IsAtRest, IsTurnOf};
    ghost use Rattle.work_lock.specs.Within.{IsSameInTable, WaitsFor, IsServed};

    /// Waits for a turn, and takes the value out. The value's history goes on from what the seat had seen, by entries that this
    /// seat did not make.
    pub fn open<R: Wait>(&self, rt: &R, seat: &mut Seat<V>) -> (Turn<V>, V)
        requires lock { lock_of seat.old ≡ lock_id self.now }
        requires rest { IsAtRest seat.old }
        ensures place { place_of seat.new ≡ place_of seat.old }
        ensures turn { IsTurnOf result.0 seat.new }
        ensures seen { seen_of seat.new ≡ V.entries result.1 }
        ensures follows { Follows (number_of seat.old) (seen_of seat.old) (V.entries result.1) }
    {
        let number = self.table.shared.fetch_add::<Take>(&mut seat.at, GIVEN, 1);
        self.wait_for(rt, &mut seat.at, number);
        let found = self.table.shared.exchange(&mut seat.at, HOME, None);
        let Some(value) = found else { unreachable!() };
        let turn = Turn {
            length: value.length(),
            opened: Snapshot::of(&seat.at),
        };
        (turn, value)
    }

    // Waits until the turn of this number is served.
    fn wait_for<R: Wait>(
        &self,
        rt: &R,
        seat: &mut atomic_table::Seat<Option<V>, View<V::Entry>>,
        number: u64,
    )
        requires lock { seat.old.table_id ≡ lock_id self.now }
        requires turn { WaitsFor number seat.old.me }
        ensures same { IsSameInTable seat.old seat.new }
        ensures served { IsServed V.entries seat.old.me seat.new.me }
    {
        let mut pause = Pause::new();
        for _ in rt.forever() {
            let serving = self.table.shared.load::<Look>(seat, PASSED);
            if serving == number {
                return;
            }
            if !pause.lets_look(number.wrapping_sub(serving)) {
                self.sleep(rt, &mut pause, serving);
            }
        }
        unreachable!()
    }

    // Sleeps until the turn is passed, or for a while. A seat that a pass woke in vain first wakes another sleeper, so that the
    // wake reaches the seat that is served.
    fn sleep<R: Wait>(&self, rt: &R, pause: &mut Pause, serving: u64) {
        if pause.slept_past(serving) {
            self.table.shared.wake_one(PASSED);
        }
        let low = (serving % (1 << 32)) as u32;
        self.table
            .shared
            .park_timeout(rt, PASSED, low, Pause::nap());
    }

    // Wakes a sleeping seat, if a seat waits for a turn that is not yet passed.
    fn wake(&self, passed: u64) {
        if self.table.shared.peek(GIVEN) != passed {
            self.table.shared.wake_one(PASSED);
        }
    }

    /// Puts the value back and passes the turn. Since `open`, only entries of this seat may have been added to the value's
    /// history.
    pub fn close_turn(&self, seat: &mut Seat<V>, turn: Turn<V>, value: V)
        requires lock { lock_of seat.old ≡ lock_id self.now }
        requires turn { IsTurnOf turn seat.old }
        requires extends { Extends (number_of seat.old) (seen_of seat.old) (V.entries value) }
        ensures place { place_of seat.new ≡ place_of seat.old }
        ensures rest { IsAtRest seat.new }
        ensures seen { seen_of seat.new ≡ V.entries value }
    {
        let Turn { length, opened: _ } = turn;
        let longer = value.length();
        let home = Some(value);
        self.table
            .shared
            .compare_exchange_with::<Count>(&mut seat.at, LENGTH, length, longer, &home);
        let found = self.table.shared.exchange(&mut seat.at, HOME, home);
        let None = found else { unreachable!() };
        let served = self.table.shared.fetch_add::<Pass>(&mut seat.at, PASSED, 1);
        self.wake(served.wrapping_add(1));
    }
}
