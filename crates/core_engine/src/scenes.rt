//! What a step finds of a core before anything is changed.

use base_limits::Mappings;
use core_queue::{QueuedUpdate, Settings};

/// What an event finds: the mappings, the settings, a lower bound for the number of committed updates (`least`), and a number of
/// first updates after which none has read anything (`most`).
#[derive(Drop)]
pub(crate) struct Scene<'a> {
    pub(crate) mappings: &'a Mappings<'a>,
    pub(crate) settings: Settings,
    pub(crate) least: u32,
    pub(crate) most: u32,
}

/// The update at a place of the queue, and the updates above it, of which only the first `readers` may have read something.
#[derive(Drop)]
pub(crate) struct Spot<'a> {
    pub(crate) item: &'a QueuedUpdate,
    pub(crate) upper: &'a [QueuedUpdate],
    pub(crate) readers: usize,
}
