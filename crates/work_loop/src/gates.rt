// Gates, which a worker passes around each ticket's work.

/// A point that a worker passes before it works at a ticket, and again after the ticket is finished. A gate may hold the worker
/// for a while, but it does not change what the work does.
pub trait Gate {
    /// Called with the ticket's number before the ticket is evaluated.
    fn enter(&self, call: u64);

    /// Called with the ticket's number after the ticket was finished.
    fn leave(&self, call: u64);
}

/// A gate that is always open.
#[derive(Drop)]
pub struct OpenGate;

impl Gate for OpenGate {
    fn enter(&self, _call: u64) {}

    fn leave(&self, _call: u64) {}
}
