// How a lock begins and ends: its seats are dealt one by one, and gathered again.
ghost use Rattle.std.specs.Prelude.{◌≡◌, ◌<◌, ◌≤◌, [], ◌∷◌, map, length, vec_capacity, IfOk, IfErr};
ghost use Rattle.work_lock.specs.declared.seat.Seat.{Seat};
ghost use Rattle.work_lock.specs.Lock.{lock_id};
ghost use Rattle.work_lock.specs.Seats.{lock_of, seen_of, IsAtRest, AreSeats, AllSaw, AllWithin};
ghost use Rattle.work_lock.specs.Within.{gathered, seen_first, IsDealer, IsSameInTable, AreOthers};

use crate::history::Grows;
use crate::lock::{HOME, StampLock};
use crate::plays::{Deal, Gather};
use crate::seat::Seat;
use atomic_table::{Refused, Table};
use def_memory::Memory;
use std::alloc::{AllocFailed, Global};
use std::snapshot::Snapshot;

/// A lock over the value, with `seats` seats, from 1 to 16, numbered from 0 in order. Each seat has seen the value's whole
/// history. If memory runs out, the value comes back with the error.
pub fn new<V: Grows>(
    alloc: Global,
    value: V,
    seats: u64,
) -> Result<(StampLock<V>, Vec<Seat<V>>), (V, Memory)>
    requires count { (1 ≤ seats) × (seats ≤ 16) }
    ensures seats { IfOk result (λ r. AreSeats (lock_id r.0) seats r.1.items) }
    ensures saw { IfOk result (λ r. AllSaw (V.entries value) r.1.items) }
    ensures err { IfErr result (λ e. e.0 ≡ value) }
{
    let Ok(mut dealt) = Vec::with_capacity(alloc, seats as usize) else {
        return Err((value, Memory));
    };
    match lay(alloc, value) {
        Ok((lock, first)) => {
            dealt.push_reserved(first);
            lock.deal(&mut dealt, seats);
            Ok((lock, dealt))
        }
        Err(value) => Err((value, Memory)),
    }
}

// A lock over the value, and its first seat.
fn lay<V: Grows>(alloc: Global, value: V) -> Result<(StampLock<V>, Seat<V>), V>
    ensures ok { IfOk result (λ r. IsDealer (lock_id r.0) 1 r.1 × (seen_of r.1 ≡ V.entries value)) }
    ensures err { IfErr result (λ v. v ≡ value) }
{
    let length = value.length();
    let about = Snapshot::of(&value);
    let mut slots = Vec::new(alloc);
    if let Err(failed) = slots.push(Some(value)) {
        slots.destroy_empty();
        let AllocFailed { value } = failed;
        let Some(value) = value else { unreachable!() };
        return Err(value);
    }
    match Table::new(alloc, &[0, 0, length], slots, &about) {
        Ok((table, at)) => Ok((StampLock { table }, Seat { at, number: 0 })),
        Err(refused) => {
            let Refused { mut slots } = refused;
            let Some(Some(value)) = slots.pop() else {
                unreachable!()
            };
            slots.destroy_empty();
            Err(value)
        }
    }
}

impl<V: Grows> StampLock<V> {
    // Splits seats off the first until there are `count`.
    fn deal(&self, seats: &mut Vec<Seat<V>>, count: u64)
        requires count { (1 ≤ count) × (count ≤ 16) }
        requires room { count ≤ vec_capacity seats.old }
        requires first { (s : Seat V V.Entry) × (seats.old.items ≡ s ∷ []) ×
            IsDealer (lock_id self.now) 1 s }
        ensures seats { AreSeats (lock_id self.now) count seats.new.items }
        ensures saw { AllSaw (seen_first seats.old.items) seats.new.items }
    {
        while (seats.len() as u64) < count {
            let number = seats.len() as u64;
            let first = &mut seats[0];
            let next = self.table.shared.split_seat::<Deal>(&mut first.at);
            seats.push_reserved(Seat { at: next, number });
        }
    }

    // Joins the other seats to the first.
    fn gather(&self, first: &mut Seat<V>, others: Vec<Seat<V>>)
        requires lock { lock_of first.old ≡ lock_id self.now }
        requires first { IsAtRest first.old }
        requires alone { first.old.at.me.0.joined ≡ [] }
        requires others { AreOthers (lock_id self.now) others.items }
        ensures same { IsSameInTable first.old.at first.new.at }
        ensures gathered { first.new.at.me ≡
            (gathered first.old.at.me.0 (map seen_of others.items), []) }
    {
        for other in others {
            let at = other.into_inner();
            self.table.shared.join_seat::<Gather>(&mut first.at, at);
        }
    }

    /// Ends the lock and gives the value. It takes the seats that `new` gave, each once and in order of their numbers; none holds
    /// a turn. The value's history begins with what each seat has seen, and goes on by entries of the other seats.
    pub fn into_value(self, mut seats: Vec<Seat<V>>) -> V
        requires some { 0 < length seats.items }
        requires seats { AreSeats (lock_id self) (length seats.items) seats.items }
        ensures within { AllWithin (length seats.items) (V.entries result) seats.items }
    {
        let mut first = seats.remove(0);
        self.gather(&mut first, seats);
        let StampLock { table } = self;
        let at = first.into_inner();
        let mut closed = table.close_with(at);
        let found = closed.take(HOME);
        closed.free();
        let Some(value) = found else { unreachable!() };
        value
    }
}
