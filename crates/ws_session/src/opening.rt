//! The file of a session: opened, read on and closed.

use crate::sessions::{Session, Texts};
use std::alloc::{AllocError, Global};
use std::mem;
use ws_fault::Refusal;
use ws_log::{Access, Fault, OpenLog, Opened, Reopened, RestingLog, open, reopen};
use ws_space::{Opening, Point, Space};

impl Session {
    /// Locks the file, reads what is new, and returns the log in hand; None if there is no file. With a log the workspace is in
    /// memory. The lines of the log are kept only if `tells_log` says so or further lines may come.
    pub(crate) fn open(
        &mut self,
        rt: &HostRuntime,
        access: Access,
        tells_log: bool,
    ) -> Result<Option<OpenLog>, Refusal> {
        let alloc = rt.alloc();
        match self.read_on(rt, access) {
            Ok(log) => self.built(alloc, log, tells_log),
            Err(Fault::Absent) => {
                self.forget(alloc);
                Ok(None)
            }
            Err(fault) => {
                self.forget(alloc);
                Err(self.speaker.log_fault(alloc, fault))
            }
        }
    }

    fn read_on(&mut self, rt: &HostRuntime, access: Access) -> Result<OpenLog, Fault> {
        match self.file.resting.take() {
            Some(resting) => self.reread(rt, access, resting),
            None => {
                let wait = self.speaker.wait();
                let opened = open(rt, self.speaker.settings.path.as_str(), access, wait)?;
                Ok(self.begin_with(opened))
            }
        }
    }

    fn reread(
        &mut self,
        rt: &HostRuntime,
        access: Access,
        resting: RestingLog,
    ) -> Result<OpenLog, Fault> {
        let wait = self.speaker.wait();
        let path = self.speaker.settings.path.as_str();
        match reopen(rt, resting, path, access, wait)? {
            Reopened::Same(opened) => self.file.keep(opened),
            Reopened::Another(opened) => Ok(self.begin_with(opened)),
        }
    }

    fn begin_with(&mut self, opened: Opened) -> OpenLog {
        drop(self.space.take());
        let Opened { log, texts } = opened;
        self.file.texts = texts;
        log
    }

    // The log, once the workspace is in memory.
    fn built(
        &mut self,
        alloc: Global,
        log: OpenLog,
        tells_log: bool,
    ) -> Result<Option<OpenLog>, Refusal> {
        match self.build(alloc, tells_log) {
            Ok(()) => Ok(Some(log)),
            Err(refusal) => {
                drop(log);
                Err(refusal)
            }
        }
    }

    // Makes the workspace of all texts that were read, or adds what is new to it.
    fn build(&mut self, alloc: Global, tells_log: bool) -> Result<(), Refusal> {
        let fault = match self.read_texts(alloc, tells_log) {
            Ok(()) => return Ok(()),
            Err(fault) => fault,
        };
        let refusal = match fault {
            Opening::Unread(place) => self.speaker.unread(alloc, place),
            Opening::Memory => Refusal::Memory,
        };
        self.forget(alloc);
        Err(refusal)
    }

    fn read_texts(&mut self, alloc: Global, tells_log: bool) -> Result<(), Opening> {
        let texts = self.file.texts.as_slice();
        if let Some(space) = &mut self.space {
            return read_new(alloc, space, texts);
        }
        let keeps_lines = tells_log || self.speaker.settings.stays;
        let space = Space::open(alloc, texts, keeps_lines)?;
        drop(mem::replace(&mut self.space, Some(space)));
        Ok(())
    }

    /// Whether an update waits in the file. It is also true if there is no file, or if it cannot be read.
    pub fn waits(&mut self, rt: &HostRuntime) -> bool {
        let Ok(Some(log)) = self.open(rt, Access::Read, true) else {
            return true;
        };
        let waits = match &self.space {
            Some(space) => !space.state.waiting().is_empty(),
            None => true,
        };
        self.rest(rt.alloc(), log);
        waits
    }

    /// Frees the lock. What was read is kept, unless the lock could not be freed, or the workspace cannot go back.
    pub(crate) fn rest(&mut self, alloc: Global, log: OpenLog) {
        if !self.file.rest(log) || !self.is_back(alloc) {
            self.forget(alloc);
        }
    }

    // Whether the workspace has exactly what is recorded. What was done in memory alone is taken back, if there is a point.
    fn is_back(&mut self, alloc: Global) -> bool {
        let point = self.speaker.point.take();
        match &mut self.space {
            Some(space) => is_back_to(alloc, space, point),
            None => {
                drop(point);
                true
            }
        }
    }
}

impl Texts {
    // Adds the new texts, and returns the log.
    fn keep(&mut self, opened: Opened) -> Result<OpenLog, Fault> {
        let Opened { log, texts } = opened;
        match self.add_texts(texts) {
            Ok(()) => Ok(log),
            Err(_) => {
                drop(log);
                Err(Fault::Memory)
            }
        }
    }

    fn add_texts(&mut self, texts: Vec<Vec<u8>>) -> Result<(), AllocError> {
        for text in texts {
            self.texts.push(text)?;
        }
        Ok(())
    }

    // Frees the lock. Returns whether the log is at rest now.
    fn rest(&mut self, log: OpenLog) -> bool {
        match log.release() {
            Ok(resting) => {
                drop(mem::replace(&mut self.resting, Some(resting)));
                true
            }
            Err(_) => false,
        }
    }
}

// Takes the records among the texts that the workspace does not have yet.
fn read_new(alloc: Global, space: &mut Space, texts: &[Vec<u8>]) -> Result<(), Opening> {
    let first = space.records.len().saturating_add(1);
    let new = texts.get(first..).unwrap_or(&[]);
    for (place, text) in new.iter().enumerate() {
        match space.replay(alloc, text.as_slice()) {
            Ok(()) => {}
            Err(Opening::Unread(_)) => return Err(Opening::Unread(place.saturating_add(first))),
            Err(Opening::Memory) => return Err(Opening::Memory),
        }
    }
    Ok(())
}

fn is_back_to(alloc: Global, space: &mut Space, point: Option<Point>) -> bool {
    if space.is_recorded() {
        drop(point);
        return true;
    }
    match point {
        Some(point) => space.back_to(alloc, point).is_ok(),
        None => false,
    }
}
