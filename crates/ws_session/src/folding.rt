//! A fold: what stands becomes the base.
ghost use Rattle.std.specs.Prelude.{[], IfOk};
ghost use Rattle.ws_log.specs.Held.{IsFresh, IsMadeOf};

use crate::leaving::Done;
use crate::making::head_text;
use crate::sessions::Session;
use def_memory::Memory;
use std::alloc::{AllocError, Global};
use ws_fault::{Refusal, Status};
use ws_json::{Items, Object};
use ws_log::{Fault, OpenLog, fold};
use ws_print::Lines;
use ws_reply::{Form, Kind, Reply};
use ws_space::Space;

/// Prepares a fold: makes the text of the new head, unless there is nothing to fold.
pub(crate) fn fold_over(alloc: Global, space: &Space, form: Form) -> Result<Done, Refusal> {
    if space.state.order().len() == 0 && space.records.is_empty() {
        let did = Did {
            status: Status::Nothing,
            word: "nothing to fold",
            also: None,
        };
        return Ok(Done::Told(reply(alloc, form, space.at(), did)?));
    }
    let also = folded_words(alloc, space)?;
    let did = Did {
        status: Status::Done,
        word: "done",
        also: Some(also.as_str()),
    };
    let head = head_text(alloc, space)?;
    Ok(Done::Folded(head, reply(alloc, form, space.at(), did)?))
}

// What a fold did: its status, the word for it, and a further line.
#[derive(Clone, Copy)]
struct Did<'a> {
    status: Status,
    word: &'a str,
    also: Option<&'a str>,
}

fn folded_words(alloc: Global, space: &Space) -> Result<String, AllocError> {
    let count = space.state.order().len();
    let waits = space.state.waiting().len();
    let is = if count == 1 {
        "update is"
    } else {
        "updates are"
    };
    let wait = if waits == 1 { "waits" } else { "wait" };
    format!(in alloc;
        "{count} {is} now the base; {waits} {wait}; what they did can no longer be undone"
    )
}

fn reply(alloc: Global, form: Form, at: u32, did: Did<'_>) -> Result<Reply, Memory> {
    if form == Form::Json {
        let object = object(alloc, at, did);
        return Ok(Reply::of_object(alloc, did.status, Kind::Change, object)?);
    }
    let word = did.word;
    let mut lines = Lines::new(alloc);
    lines.made(format!(in alloc; "{word}: fold"));
    if let Some(also) = did.also {
        lines.made(format!(in alloc; "  {also}"));
    }
    Ok(Reply::of_text(did.status, Kind::Change, lines.done()?))
}

fn object(alloc: Global, at: u32, did: Did<'_>) -> Object {
    let mut object = Object::new(alloc);
    object.text("reply", "change");
    object.text("did", did.word);
    object.text("line", "fold");
    object.number("at", i64::from(at));
    let mut items = Items::new(alloc);
    if let Some(also) = did.also {
        items.text(also);
    }
    object.items("also", items);
    object.items("came", Items::new(alloc));
    object.items("went", Items::new(alloc));
    object.items("filled", Items::new(alloc));
    object
}

impl Session {
    /// Puts the head in place of the log, and returns the reply. The workspace in memory is dropped.
    pub(crate) fn fold(
        &mut self,
        rt: &HostRuntime,
        log: OpenLog,
        head: Vec<u8>,
        reply: Reply,
    ) -> Result<(OpenLog, Reply), Refusal>
        ensures fresh { IfOk result (λ told. IsFresh told.0) }
        ensures made { IfOk result (λ told. IsMadeOf head.items [] told.0) }
    {
        match self.fold_file(rt, log, head) {
            Ok(log) => {
                drop(self.space.take());
                Ok((log, reply))
            }
            Err(fault) => {
                drop(reply);
                Err(self.speaker.log_fault(rt.alloc(), fault))
            }
        }
    }

    fn fold_file(&mut self, rt: &HostRuntime, log: OpenLog, head: Vec<u8>) -> Result<OpenLog, Fault>
        ensures fresh { IfOk result IsFresh }
        ensures made { IfOk result (IsMadeOf head.items []) }
    {
        let mut texts = Vec::new(rt.alloc());
        if texts.reserve_exact(1).is_err() {
            drop((log, head));
            return Err(Fault::Memory);
        }
        let path = self.speaker.settings.path.as_str();
        let log = fold(rt, path, log, head.as_slice())?;
        // There is room for it, so nothing fails after the fold.
        let _ = texts.push(head);
        self.file.texts = texts;
        Ok(log)
    }
}
