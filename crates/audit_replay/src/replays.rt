//! A replay, and its calls.
ghost use Rattle.std.specs.Prelude.{◌≡◌, IfOk, OnErr};
ghost use Rattle.audit_replay.specs.Replays.{HasMade, HasCount, IsLeftOf, IsQuietReplay, IsReplay, IsWholeReplay, place_in};

use crate::events::Event;
use crate::levels::Levels;
use audit_updates::{AuditedUpdate, Settings, is_quiet};
use base_limits::{Budget, Mappings};
use base_types::Memory;
use core_entries::Entry;
use lang_session::SessionUpdate;
use std::alloc::Global;

/// A history of a session as far as it was replayed: the mappings, the budget of an attempt, the settings, the updates handed in,
/// the admitted updates with their present attempts, and the base with the trails of the lowest of these.
#[derive(Drop)]
pub struct Replay<'s> {
    pub mappings: Mappings<'s>,
    pub budget: Budget,
    pub settings: Settings,
    pub handed: &'s [SessionUpdate],
    pub updates: Vec<AuditedUpdate>,
    pub levels: Levels,
}

impl<'s> Replay<'s> {
    /// The number of admitted updates.
    pub fn count(&self) -> usize
        ensures count { HasCount self.now result }
    {
        self.updates.len()
    }

    /// Whether all updates that were handed in are admitted.
    pub fn is_whole(&self) -> bool
        ensures whole { IsWholeReplay self.now result }
    {
        self.updates.len() == self.handed.len()
    }

    /// Whether nothing is ready, and nothing is deliverable.
    pub fn is_quiet(&self) -> bool
        requires replay { IsReplay self.now }
        ensures quiet { IsQuietReplay self.now result }
    {
        is_quiet(self.updates.as_slice(), self.settings)
    }

    /// Makes the event, and gives its entry; None if the event is not allowed, and then nothing changes. After an error the
    /// replay is of no use any more; it still has the same session, and its updates keep their numbers.
    pub fn make(&mut self, alloc: Global, event: Event) -> Result<Option<Entry>, Memory>
        requires replay { IsReplay self.old }
        ensures made { IfOk result (HasMade event self.old self.new) }
        ensures err { OnErr result (IsLeftOf self.old self.new) }
    {
        match event {
            Event::Admits => self.admit(alloc),
            Event::Steps(update) => self.step(alloc, update),
            Event::Delivers(update) => self.deliver(update),
            Event::Answers(update, choice) => self.answer(alloc, update, choice),
            Event::Withdraws(update) => self.withdraw(alloc, update),
        }
    }

    // The place of the update with this number, if there is one.
    pub(crate) fn place_of(&self, update: u32) -> Option<usize>
        ensures place { result ≡ place_in self.now.updates.items update }
    {
        if 0 < update && update as usize <= self.updates.len() {
            Some(update as usize - 1)
        } else {
            None
        }
    }
}
