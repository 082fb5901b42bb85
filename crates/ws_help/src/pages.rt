//! The pages of the help: one for all verbs, and one for each verb.

use crate::details::details_of;
use crate::texts::{example_of, form_of, short_of};
use std::alloc::{AllocError, Global};
use std::fmt::Write;
use ws_command::Verb;

/// The form of a call of the program.
pub const USAGE: &str =
    "yt [--as NAME] [--json] [--wait SECONDS] [--keep-going] [--no-files] FILE [COMMAND ..]";

/// The line that `--version` prints, without a line feed.
pub const VERSION: &str = "yt 1";

const RULES: [Verb; 4] = [Verb::Relation, Verb::Mapping, Verb::Adopt, Verb::Drop];

const CHANGES: [Verb; 9] = [
    Verb::Insert,
    Verb::Delete,
    Verb::Replace,
    Verb::Load,
    Verb::Answer,
    Verb::Undo,
    Verb::Redo,
    Verb::Try,
    Verb::Fold,
];

const LOOKING: [Verb; 7] = [
    Verb::Status,
    Verb::Show,
    Verb::Ask,
    Verb::Why,
    Verb::Questions,
    Verb::Violations,
    Verb::Log,
];

const OUT: [Verb; 6] = [
    Verb::Export,
    Verb::Page,
    Verb::Graph,
    Verb::Dump,
    Verb::Help,
    Verb::Quit,
];

const STATUSES: &str = "
A value is a number, a \"text\", or an unknown such as ?12.1. # begins a comment. help COMMAND tells more.
Statuses: 0 done, 1 waits for an answer, 2 cannot be read, 3 refused, 4 violations, 5 a file cannot be read,
6 cannot be written, 7 out of memory, 12 damaged, 13 nothing changed, 14 spent.";

/// The help page of one verb, or of all. There is no line feed after the last line.
pub fn help_text(alloc: Global, verb: Option<Verb>) -> Result<String, AllocError> {
    match verb {
        Some(verb) => verb_text(alloc, verb),
        None => whole_text(alloc),
    }
}

fn verb_text(alloc: Global, verb: Verb) -> Result<String, AllocError> {
    let form = form_of(verb);
    let short = short_of(verb);
    let details = details_of(verb);
    let example = example_of(verb);
    format!(in alloc; "{form}\n  {short}\n{details}example: {example}")
}

fn whole_text(alloc: Global) -> Result<String, AllocError> {
    let mut out = String::from_str(alloc, "usage: ")?;
    out.push_str(USAGE)?;
    out.push_str("\n  one command; or, without one, a command a line from standard input\n")?;
    add_group(&mut out, "Tables and rules", &RULES)?;
    add_group(&mut out, "Changes", &CHANGES)?;
    add_group(&mut out, "Looking", &LOOKING)?;
    add_group(&mut out, "Out", &OUT)?;
    out.push_str(STATUSES)?;
    Ok(out)
}

fn add_group(out: &mut String, title: &str, verbs: &[Verb]) -> Result<(), AllocError> {
    write!(out, "\n{title}\n")?;
    for verb in verbs {
        let word = verb.word();
        let short = short_of(*verb);
        write!(out, "  {word:<11} {short}\n")?;
    }
    Ok(())
}
