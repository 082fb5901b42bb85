//! Commands over a workspace in memory.

use crate::commands::Turn;
use crate::folding::fold_over;
use crate::kinds::change as changed;
use crate::leaving::{Done, allowed, led_to};
use crate::loading::loaded;
use crate::sessions::{Speaker, context_of};
use def_memory::Memory;
use std::alloc::Global;
use std::mem;
use ws_command::{Change, Command, Said};
use ws_fault::{Refusal, Status};
use ws_look::help;
use ws_reply::{Kind, Outcome, Reply};
use ws_space::{Opening, Point, Space};

impl Speaker {
    /// Does a command over the workspace in memory, which was made of `texts`. It is refused if it is not allowed.
    pub(crate) fn command(
        &mut self,
        rt: &HostRuntime,
        turn: &Turn<'_>,
        texts: &[Vec<u8>],
        space: &mut Space,
        said: Said,
    ) -> Result<Done, Refusal> {
        match allowed(rt.alloc(), &self.settings, space.at(), &said.command) {
            Ok(()) => self.allowed(rt, turn, texts, space, said),
            Err(refusal) => {
                drop(said);
                Err(refusal)
            }
        }
    }

    fn allowed(
        &mut self,
        rt: &HostRuntime,
        turn: &Turn<'_>,
        texts: &[Vec<u8>],
        space: &mut Space,
        said: Said,
    ) -> Result<Done, Refusal> {
        let Said { command, comment } = said;
        match command {
            Command::Change { change, .. } => {
                self.change_or_fold(rt, turn, texts, space, change, comment)
            }
            Command::Try { change, .. } => {
                let outcome = self.change(rt, turn, texts, space, change, true)?;
                Ok(Done::Told(outcome.reply))
            }
            Command::Look(look) => self.look_once(rt, turn, space, look),
            Command::Help(verb) => {
                let context = self.context(turn.time, false);
                Ok(Done::Told(help(rt.alloc(), &context, verb)?))
            }
            Command::Quit => Ok(Done::Told(quit(rt.alloc()))),
        }
    }

    fn change_or_fold(
        &mut self,
        rt: &HostRuntime,
        turn: &Turn<'_>,
        texts: &[Vec<u8>],
        space: &mut Space,
        change: Change,
        comment: String,
    ) -> Result<Done, Refusal> {
        if let Change::Fold = &change {
            drop(change);
            return fold_over(rt.alloc(), space, self.settings.form);
        }
        match self.change(rt, turn, texts, space, change, false) {
            Ok(outcome) => Ok(led_to(outcome, comment)),
            Err(refusal) => Err(refusal),
        }
    }

    /// Does a change over the workspace in memory.
    pub(crate) fn change(
        &mut self,
        rt: &HostRuntime,
        turn: &Turn<'_>,
        texts: &[Vec<u8>],
        space: &mut Space,
        change: Change,
        trying: bool,
    ) -> Result<Outcome, Refusal> {
        match self.make_ready(rt.alloc(), turn.time, space) {
            Ok(()) => self.ready_change(rt, turn, texts, space, change, trying),
            Err(memory) => {
                drop(change);
                Err(Refusal::from(memory))
            }
        }
    }

    // Tells the workspace who speaks and when, and keeps a point to go back to if further commands may come.
    fn make_ready(&mut self, alloc: Global, time: &str, space: &mut Space) -> Result<(), Memory> {
        space.say_as(alloc, time, self.settings.curator.as_str())?;
        let point = point_of(alloc, space, self.settings.stays)?;
        drop(mem::replace(&mut self.point, point));
        Ok(())
    }

    fn ready_change(
        &mut self,
        rt: &HostRuntime,
        turn: &Turn<'_>,
        texts: &[Vec<u8>],
        space: &mut Space,
        change: Change,
        trying: bool,
    ) -> Result<Outcome, Refusal> {
        if let Change::Load(load) = &change {
            let context = self.context(turn.time, trying);
            let outcome = loaded(rt, &self.settings, space, &context, load, turn.fed);
            drop(change);
            return outcome;
        }
        match self.past(rt.alloc(), texts, space, &change) {
            Ok(past) => self.change_since(rt.alloc(), turn.time, space, past, change, trying),
            Err(refusal) => {
                drop(change);
                Err(refusal)
            }
        }
    }

    // Does a change that is no `load`.
    fn change_since(
        &mut self,
        alloc: Global,
        time: &str,
        space: &mut Space,
        past: Option<Space>,
        change: Change,
        trying: bool,
    ) -> Result<Outcome, Refusal> {
        let mut past = past;
        let context = context_of(&self.settings, self.name.as_str(), time, trying);
        changed(
            alloc,
            space,
            &mut self.shown,
            past.as_mut(),
            &context,
            change,
        )
    }

    // The workspace after the record of `--at`; None if there is no `--at`, or if its record is the last, folded or not there.
    fn past(
        &self,
        alloc: Global,
        texts: &[Vec<u8>],
        space: &Space,
        change: &Change,
    ) -> Result<Option<Space>, Refusal> {
        let Change::Answer { at: Some(at), .. } = change else {
            return Ok(None);
        };
        if space.at() <= *at || *at < space.first {
            return Ok(None);
        }
        let count = (at.saturating_sub(space.first) as usize).saturating_add(1);
        match Space::open(alloc, texts.get(..count).unwrap_or(texts), false) {
            Ok(past) => Ok(Some(past)),
            Err(Opening::Unread(place)) => Err(self.unread(alloc, place)),
            Err(Opening::Memory) => Err(Refusal::Memory),
        }
    }
}

// The point to go back to if what is done in memory is not recorded; None unless further commands may come.
fn point_of(alloc: Global, space: &mut Space, stays: bool) -> Result<Option<Point>, Memory> {
    if stays {
        return Ok(Some(space.point(alloc)?));
    }
    Ok(None)
}

/// The reply to `quit`.
pub(crate) fn quit(alloc: Global) -> Reply {
    Reply::of_text(Status::Done, Kind::Quit, Vec::new(alloc))
}
