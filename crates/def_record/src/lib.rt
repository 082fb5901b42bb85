//! The record of a desk, and what a seat knows from it.
//!
//! A desk hands tickets for updates to seats. Its record is a list of items: the opening, the entries of the core's history, and
//! the tickets given and returned. Each item has the seat that made it, or none. The definitions stand in `specs/`. Each function
//! here is a law: its contract is the statement, and its body is empty.
#![tactic(auto)]

mod item;
mod laws;
mod made;

pub use crate::item::{Item, Mark};
pub use crate::laws::{
    calls_add_what_may_follow, desks_at_rest_end_serially, desks_open_on_their_core,
    held_tickets_hold_their_update, marks_stand_for_items, quiet_is_rest, records_are_legal,
    seats_at_rest_end_at_rest, small_records_compute, tickets_are_given_once, tickets_stay_out,
    tickets_tell_their_state,
};
pub use crate::made::Made;
