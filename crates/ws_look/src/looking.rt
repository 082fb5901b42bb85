//! Which command looks at what.

use crate::log::{log, log_since};
use crate::log_one::log_one;
use crate::questions::{Wanted, questions};
use crate::status::status;
use crate::tables::show;
use crate::violating::violations;
use std::alloc::Global;
use ws_command::Look;
use ws_fault::{Refusal, Status};
use ws_question::Shown;
use ws_reply::{Context, Reply, seen_text};
use ws_space::Space;

/// The reply to a command that only looks. It is empty for `ask`, `why`, `graph`, `page`, `dump` and `export`, which other crates
/// make. It is refused if what is asked for is not there.
pub fn look(
    alloc: Global,
    space: &mut Space,
    shown: &mut Shown,
    context: &Context<'_>,
    look: &Look,
) -> Result<Reply, Refusal> {
    match look {
        Look::Show(what, paging) => Ok(show(alloc, space, context, what.as_slice(), paging)?),
        Look::Questions {
            number,
            like,
            mine,
            limit,
        } => {
            let wanted = Wanted::of(*number, text_of(like), *mine, *limit);
            questions(alloc, space, shown, context, wanted)
        }
        Look::Violations { mapping, limit } => {
            Ok(violations(alloc, space, context, text_of(mapping), *limit)?)
        }
        Look::Log {
            number,
            since,
            limit,
        } => logged(alloc, space, context, *number, *since, *limit),
        Look::Status => Ok(status(alloc, space, context)?),
        Look::Ask { .. }
        | Look::Why(_, _)
        | Look::Graph(_)
        | Look::Page(_)
        | Look::Dump(_)
        | Look::Export(_) => Ok(seen_text(Status::Done, Vec::new(alloc))),
    }
}

fn text_of(text: &Option<String>) -> Option<&str> {
    match text {
        Some(text) => Some(text.as_str()),
        None => None,
    }
}

fn logged(
    alloc: Global,
    space: &mut Space,
    context: &Context<'_>,
    number: Option<u32>,
    since: Option<u32>,
    limit: Option<u32>,
) -> Result<Reply, Refusal> {
    if let Some(number) = number {
        return log_one(alloc, space, context, number);
    }
    match since {
        Some(since) => log_since(alloc, space, context, since, limit),
        None => Ok(log(alloc, space, context, limit)?),
    }
}
