//! The verdict on a trace.
ghost use Rattle.std.specs.Prelude.{◌≡◌, IfOk};
ghost use Rattle.audit_verdict.specs.Verdicts.{verdict_of};
ghost use Rattle.audit_claims.specs.Verdicts.{verdict_text};

use base_types::Memory;
use std::alloc::Global;

/// What is wrong with a line, the first of these: its form, the event that it claims, or the effect that it claims.
#[derive(Clone, Copy, Debug, PartialEq, Eq)]
pub enum Why {
    Form,
    Event,
    Effect,
}

/// The verdict on a trace. `Yes`: it is the text of a legal history with `entries` entries, after which nothing is left to do if
/// `quiet`. `No`: the first line at fault is `line`, from 1.
#[derive(Clone, Copy, Debug, PartialEq, Eq)]
pub enum Verdict {
    Yes { entries: u64, quiet: bool },
    No { line: u64, why: Why },
}

/// The line with the verdict, without its line feed.
pub fn verdict_line(alloc: Global, verdict: Verdict) -> Result<Vec<u8>, Memory>
    ensures line { IfOk result (λ line. line.items ≡ verdict_text (verdict_of verdict)) }
{
    let words = match verdict {
        Verdict::Yes {
            entries,
            quiet: true,
        } => format!(in alloc; "yes entries {entries} quiet")?,
        Verdict::Yes {
            entries,
            quiet: false,
        } => format!(in alloc; "yes entries {entries} open")?,
        Verdict::No {
            line,
            why: Why::Form,
        } => format!(in alloc; "no line {line} form")?,
        Verdict::No {
            line,
            why: Why::Event,
        } => format!(in alloc; "no line {line} event")?,
        Verdict::No {
            line,
            why: Why::Effect,
        } => format!(in alloc; "no line {line} effect")?,
    };
    Ok(words.into_bytes())
}
