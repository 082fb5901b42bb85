//! The command `audit`.
ghost use Rattle.std.specs.Prelude.{◌≡◌, ◌↔◌, ◌++◌, ◌∷◌, [], IfOk, IsTrue, None};
ghost use Rattle.audit_verdict.specs.Verdicts.{verdict_of};
ghost use Rattle.cmd_plain.specs.Audited.{IsAudited, IsJudged, audited, auditing, ending_of, own_result};
ghost use Rattle.cmd_frame.specs.Outputs.{Text, view_of};
ghost use Rattle.def_language.specs.Validity.{IsSession};
ghost use Rattle.audit_updates.specs.Settings.{settings_of};
ghost use Rattle.lang_session.specs.Base.{base_violation};
ghost use Rattle.lang_session.specs.Meanings.{session_of};

use crate::{OnSession, SessionCommand, base_refusal};
use audit_claims::{result_part, session_part};
use audit_verdict::{Terms, Verdict, audit, verdict_line};
use base_limits::Budget;
use base_types::Memory;
use cmd_frame::{Command, Ending, Output};
use lang_report::result_text;
use lang_session::Session;
use run_base::base_violation;
use run_serial::{base_of, serial};
use std::alloc::Global;

/// `audit`: reads a session, perhaps the result text of its run, and a trace, and judges the result text and the trace.
#[derive(Clone, Copy, Debug)]
pub struct Audit {
    /// The terms by which the trace is judged.
    pub terms: Terms,
}

impl Command for Audit {
    ghost gives = { λ a. audited a.terms.budget (settings_of a.terms.settings) };

    fn run(&self, alloc: Global, input: &[u8]) -> Result<Output, Memory> {
        let (session, rest) = session_part(input);
        let judging = Judging {
            terms: self.terms,
            rest,
        };
        OnSession(judging).run(alloc, session)
    }
}

// Judges what follows a session in the input.
#[derive(Drop)]
struct Judging<'a> {
    terms: Terms,
    rest: &'a [u8],
}

impl SessionCommand for Judging<'_> {
    ghost makes = { λ j. auditing j.terms.budget (settings_of j.terms.settings) j.rest.now };

    fn make(&self, alloc: Global, session: Session) -> Result<Output, Memory> {
        let base = base_of(alloc, &session)?;
        if let Some(violated) = base_violation(alloc, &session, &base)? {
            return base_refusal(alloc, &session.schema, &violated);
        }
        judged(alloc, &session, self.terms, self.rest)
    }
}

// The output for what follows a session whose base violates no mapping.
fn judged(alloc: Global, session: &Session, terms: Terms, rest: &[u8]) -> Result<Output, Memory>
    requires valid { IsSession (session_of session.now) }
    requires met { base_violation (session_of session.now) ≡ None }
    ensures audited { IfOk result (λ output.
        IsAudited terms.budget (settings_of terms.settings) (session_of session.now) rest.now
        (view_of output)) }
{
    let Some((result, trace)) = result_part(rest) else {
        return on_trace(alloc, session, terms, rest);
    };
    if is_own_result(alloc, session, terms.budget, result)? {
        on_trace(alloc, session, terms, trace)
    } else {
        line(alloc, Ending::Refuted, b"no result")
    }
}

// Whether the text is the result text of the session's run.
fn is_own_result(
    alloc: Global,
    session: &Session,
    budget: Budget,
    text: &[u8],
) -> Result<bool, Memory>
    requires valid { IsSession (session_of session.now) }
    requires met { base_violation (session_of session.now) ≡ None }
    ensures same { IfOk result (λ same. IsTrue same ↔
        (text.now ≡ own_result budget (session_of session.now))) }
{
    let told = serial(alloc, session, budget)?;
    let own = result_text(alloc, session, &told)?;
    Ok(text == own.as_slice())
}

// The output for a trace.
fn on_trace(alloc: Global, session: &Session, terms: Terms, trace: &[u8]) -> Result<Output, Memory>
    requires valid { IsSession (session_of session.now) }
    requires met { base_violation (session_of session.now) ≡ None }
    ensures judged { IfOk result (λ output.
        IsJudged terms.budget (settings_of terms.settings) (session_of session.now) trace.now
        (view_of output)) }
{
    let verdict = audit(alloc, session, terms, trace)?;
    let words = verdict_line(alloc, verdict)?;
    line(alloc, ending(verdict), words.as_slice())
}

// How the command ends with this verdict.
fn ending(verdict: Verdict) -> Ending
    ensures ending { result ≡ ending_of (verdict_of verdict) }
{
    match verdict {
        Verdict::Yes { .. } => Ending::Ended,
        Verdict::No { .. } => Ending::Refuted,
    }
}

// The words as a line.
fn line(alloc: Global, ending: Ending, words: &[u8]) -> Result<Output, Memory>
    ensures line { IfOk result (λ output. view_of output ≡ Text ending (words.now ++ 10 ∷ [])) }
{
    let mut text = Vec::new(alloc);
    text.extend_from_slice(words)?;
    text.push(b'\n')?;
    Ok(Output::Text(ending, text))
}
