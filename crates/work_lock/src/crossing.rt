// If the value is Send, the lock is Send and Sync, and seats and turns are Send. A missing proof shows here, before it shows
// where threads start.

use crate::history::Grows;
use crate::lock::StampLock;
use crate::seat::{Seat, Turn};

fn is_send<T: Send>(_value: &T) {}

fn is_sync<T: Sync>(_value: &T) {}

fn cross_threads<V: Grows + Send>(lock: &StampLock<V>, seat: &Seat<V>, turn: &Turn<V>) {
    is_send(lock);
    is_sync(lock);
    is_send(seat);
    is_send(turn);
}
