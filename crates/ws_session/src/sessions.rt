//! A session, and its settings.

use std::alloc::{AllocError, Global};
use std::mem;
use std::time::Duration;
use ws_log::RestingLog;
use ws_question::Shown;
use ws_reply::{Context, Form};
use ws_space::{Point, Space};

/// The settings of a session: the file; who speaks; the number of seconds to wait for the file; the form of replies; whether
/// other files are closed; and whether further commands may come.
#[derive(Drop)]
pub struct Settings {
    pub path: String,
    pub curator: String,
    pub wait: u32,
    pub form: Form,
    pub no_files: bool,
    pub stays: bool,
}

/// A session: who speaks, what was read of the file, and its workspace, if it is in memory.
#[derive(Drop)]
pub struct Session {
    pub(crate) speaker: Speaker,
    pub(crate) file: Texts,
    // The workspace of the texts.
    pub(crate) space: Option<Space>,
}

/// Who speaks, and what the speaker was shown.
#[derive(Drop)]
pub(crate) struct Speaker {
    pub settings: Settings,
    // The name of the file in faults.
    pub name: String,
    pub shown: Shown,
    // The point to go back to if what is done in memory is not recorded.
    pub point: Option<Point>,
}

/// The texts read from the file, the head first, and the log at rest. While a command is done its log is in hand, which is a value
/// of its own.
#[derive(Drop)]
pub(crate) struct Texts {
    pub texts: Vec<Vec<u8>>,
    pub resting: Option<RestingLog>,
}

impl Session {
    /// A session that has read nothing yet.
    pub fn new(alloc: Global, settings: Settings) -> Result<Session, AllocError> {
        let name = String::from_str(alloc, called(&settings, settings.path.as_str()))?;
        Ok(Session {
            speaker: Speaker {
                settings,
                name,
                shown: Shown::new(alloc),
                point: None,
            },
            file: Texts::none(alloc),
            space: None,
        })
    }

    /// Drops all that was read.
    pub(crate) fn forget(&mut self, alloc: Global) {
        drop(mem::replace(&mut self.file, Texts::none(alloc)));
        drop(self.space.take());
        drop(self.speaker.point.take());
    }
}

impl Texts {
    /// No texts: nothing was read.
    pub(crate) fn none(alloc: Global) -> Texts {
        Texts {
            texts: Vec::new(alloc),
            resting: None,
        }
    }
}

impl Speaker {
    /// How long to wait for the file if another process has it.
    pub(crate) fn wait(&self) -> Duration {
        Duration::from_secs(u64::from(self.settings.wait))
    }

    /// The context of a command: who speaks, when, and the form of its reply.
    pub(crate) fn context<'a>(&'a self, time: &'a str, trying: bool) -> Context<'a> {
        context_of(&self.settings, self.name.as_str(), time, trying)
    }
}

/// The context of a command: who speaks, when, and the form of its reply. `name` is the file's name in faults.
pub(crate) fn context_of<'a>(
    settings: &'a Settings,
    name: &'a str,
    time: &'a str,
    trying: bool,
) -> Context<'a> {
    Context {
        curator: settings.curator.as_str(),
        time,
        file: name,
        form: settings.form,
        trying,
    }
}

/// The name of a file in faults: the path, or its last part if replies are objects, so that no folder is shown.
pub(crate) fn called<'a>(settings: &Settings, path: &'a str) -> &'a str {
    if settings.form == Form::Text {
        return path;
    }
    let trimmed = path.trim_end_matches('/');
    let last = match trimmed.rsplit_once('/') {
        Some((_, last)) => last,
        None => trimmed,
    };
    if last.is_empty() { path } else { last }
}
