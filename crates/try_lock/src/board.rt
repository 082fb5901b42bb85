// The board: the value inside the lock.
ghost use Rattle.std.specs.Prelude.{◌≡◌, ◌+◌, ◌<◌, ◌≤◌, ℕ, IfOk, IfSome, IfNone, slice_index, length, vec_len, vec_capacity};
ghost use Rattle.def_record.specs.Makers.{Extends};
ghost use Rattle.work_loop.specs.Offers.{IfTicket, IfQuiet, tickets_in, tickets_spent};
ghost use Rattle.try_lock.specs.Events.{made_all, given_to, returned_by, count_for, IsHeld, NoneOut};

use def_memory::Memory;
use std::alloc::Global;
use work_lock::Grows;
use work_loop::Offer;

/// What was done with a ticket, by its number.
#[derive(Clone, Copy)]
pub enum Event {
    Gave(u64),
    Returned(u64),
}

/// An event, and the seat that made it.
#[derive(Clone, Copy)]
pub struct Item {
    pub event: Event,
    pub maker: u64,
}

/// The history, how many tickets there are and how many were given, and the seat that holds each ticket that is out. There is
/// room for the return of each.
#[derive(Drop)]
pub struct Board {
    pub items: Vec<Item>,
    pub tickets: u64,
    pub given: u64,
    pub holders: Vec<u64>,
    ghost room: { vec_len items + vec_len holders ≤ vec_capacity items },
    ghost balanced: { (j : ℕ) → given_to j (made_all items.items)
        ≡ returned_by j (made_all items.items) + count_for j holders.items },
}

/// A ticket, which must be spent.
pub struct Ticket {
    pub(crate) number: u64,
}

impl Grows for Board {
    type Entry = Event;

    ghost entries = { λ b. made_all b.items.items };

    fn length(&self) -> u64 {
        self.items.len() as u64
    }
}

impl Board {
    /// A board with `tickets` tickets to give.
    pub fn new(alloc: Global, tickets: u64) -> Board {
        Board {
            items: Vec::new(alloc),
            tickets,
            given: 0,
            holders: Vec::new(alloc),
        }
    }

    /// The next ticket for this seat; if none is left, whether one is out.
    pub fn offer(&mut self, maker: u64) -> Result<Offer<Ticket>, Memory>
        ensures extends { Extends maker (made_all self.old.items.items)
            (made_all self.new.items.items) }
        ensures given { given_to maker (made_all self.new.items.items)
            ≡ given_to maker (made_all self.old.items.items) + tickets_in result }
        ensures returned { returned_by maker (made_all self.new.items.items)
            ≡ returned_by maker (made_all self.old.items.items) }
        ensures ticket { IfOk result
            (IfTicket (λ _. IsHeld maker (made_all self.new.items.items))) }
        ensures quiet { IfOk result (IfQuiet (NoneOut (made_all self.new.items.items))) }
    {
        if self.given < self.tickets {
            return Ok(Offer::Ticket(self.give(maker)?));
        }
        if self.holders.is_empty() {
            Ok(Offer::Quiet)
        } else {
            Ok(Offer::Idle)
        }
    }

    // Gives one more ticket, with room for its return.
    fn give(&mut self, maker: u64) -> Result<Ticket, Memory>
        requires left { self.old.given < self.old.tickets }
        ensures extends { Extends maker (made_all self.old.items.items)
            (made_all self.new.items.items) }
        ensures given { given_to maker (made_all self.new.items.items)
            ≡ given_to maker (made_all self.old.items.items) + tickets_spent result }
        ensures returned { returned_by maker (made_all self.new.items.items)
            ≡ returned_by maker (made_all self.old.items.items) }
    {
        self.items.reserve(self.holders.len() + 2)?;
        self.holders.reserve(1)?;
        let number = self.given + 1;
        self.items.push_reserved(Item {
            event: Event::Gave(number),
            maker,
        });
        self.holders.push_reserved(maker);
        self.given = number;
        Ok(Ticket { number })
    }

    /// Takes a ticket back from this seat, which holds one.
    pub fn take_back(&mut self, maker: u64, ticket: Ticket)
        requires held { IsHeld maker (made_all self.old.items.items) }
        ensures extends { Extends maker (made_all self.old.items.items)
            (made_all self.new.items.items) }
        ensures given { given_to maker (made_all self.new.items.items)
            ≡ given_to maker (made_all self.old.items.items) }
        ensures returned { returned_by maker (made_all self.new.items.items)
            ≡ returned_by maker (made_all self.old.items.items) + 1 }
    {
        let Ticket { number } = ticket;
        let Some(place) = place_of(self.holders.as_slice(), maker) else {
            unreachable!()
        };
        self.holders.remove(place);
        self.items.push_reserved(Item {
            event: Event::Returned(number),
            maker,
        });
    }
}

// The first place of the seat among the holders.
fn place_of(holders: &[u64], maker: u64) -> Option<usize>
    ensures found { IfSome result (λ i.
        (i < length holders.now) × (slice_index holders.now i ≡ maker)) }
    ensures none { IfNone result (count_for maker holders.now ≡ 0) }
{
    for place in 0..holders.len() {
        if holders[place] == maker {
            return Some(place);
        }
    }
    None
}
