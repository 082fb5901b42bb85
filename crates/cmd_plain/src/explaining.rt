//! The command `explain`: the reasons for a tuple in what a session's updates leave.
ghost use Rattle.std.specs.Prelude.{◌≡◌, None, IfOk};
ghost use Rattle.std.specs.Option.{option_map};
ghost use Rattle.base_types.specs.Meanings.{fact_of as tuple_meant};
ghost use Rattle.cmd_frame.specs.Outputs.{view_of};
ghost use Rattle.run_explain.specs.ReasonMeanings.{reasons_in};
ghost use Rattle.lang_forms.specs.Views.{fact_of as fact_meant};
ghost use Rattle.def_language.specs.Validity.{IsSession};
ghost use Rattle.chase_update.specs.Results.{result_of};
ghost use Rattle.lang_report.specs.Results.{serial_told};
ghost use Rattle.lang_session.specs.Base.{base_violation};
ghost use Rattle.lang_session.specs.Meanings.{session_of};
ghost use Rattle.cmd_plain.specs.Explained.{absent_output, absent_text, explained, explained_of, explanation_in, reasons_output, reasons_text};

use crate::{SessionCommand, base_refusal, ending_by};
use base_limits::Budget;
use base_types::{Memory, Tuple};
use chase_update::SessionResult;
use cmd_frame::Output;
use lang_reader::{RawFact, tuple_in};
use lang_session::Session;
use run_base::base_violation;
use run_explain::{Explanation, explain_over, explanation_text};
use run_serial::{base_of, serial_over};
use set_facts::IndexedFacts;
use std::alloc::Global;

/// `explain`: runs the updates whole, one after the other, and prints why a tuple is in the repository that they leave, or that
/// it is absent.
#[derive(Drop)]
pub struct Explain<'a> {
    /// The number of steps that an update may make.
    pub budget: Budget,
    /// The tuple, as the fact that was read.
    pub fact: &'a RawFact,
}

// The text for a tuple that is absent.
fn absent_text(alloc: Global) -> Result<Vec<u8>, Memory>
    ensures { IfOk result (λ text. text.items ≡ absent_text) }
{
    let mut text = Vec::new(alloc);
    text.extend_from_slice(b"absent\n")?;
    Ok(text)
}

// The lines of the reasons, or the text for a tuple that is absent.
fn reasons_text(
    alloc: Global,
    session: &Session,
    explanation: &Option<Explanation>,
) -> Result<Vec<u8>, Memory>
    ensures { IfOk result (λ text. text.items ≡
        reasons_text (session_of session.now) (option_map reasons_in explanation.now)) }
{
    match explanation {
        Some(reasons) => explanation_text(alloc, session, reasons),
        None => absent_text(alloc),
    }
}

// The output of a run, with these reasons.
fn reasons_output(
    alloc: Global,
    session: &Session,
    told: &SessionResult,
    explanation: &Option<Explanation>,
) -> Result<Output, Memory>
    ensures { IfOk result (λ output. view_of output ≡
        reasons_output (session_of session.now) (result_of told.now)
        (option_map reasons_in explanation.now)) }
{
    let text = reasons_text(alloc, session, explanation)?;
    Ok(Output::Text(ending_by(told), text))
}

// The output of a run that left no such tuple.
fn absent_output(alloc: Global, told: &SessionResult) -> Result<Output, Memory>
    ensures { IfOk result (λ output. view_of output ≡ absent_output (result_of told.now)) }
{
    let text = absent_text(alloc)?;
    Ok(Output::Text(ending_by(told), text))
}

// The output of the run over the base, with the reasons for the tuple.
fn with_reasons(
    alloc: Global,
    session: &Session,
    base: IndexedFacts,
    budget: Budget,
    tuple: &Tuple,
) -> Result<Output, Memory>
    requires valid { IsSession (session_of session.now) }
    requires met { base_violation (session_of session.now) ≡ None }
    requires base { base ≡ (session_of session.now).base }
    ensures { IfOk result (λ output. view_of output ≡
        reasons_output (session_of session.now) (serial_told budget (session_of session.now))
        (explanation_in budget (session_of session.now) (tuple_meant tuple.now))) }
{
    let run = explain_over(alloc, session, base, budget, tuple)?;
    reasons_output(alloc, session, &run.result, &run.explanation)
}

// The output of the run over the base, for a fact that is no tuple of the schema.
fn without_reasons(
    alloc: Global,
    session: &Session,
    base: IndexedFacts,
    budget: Budget,
) -> Result<Output, Memory>
    requires valid { IsSession (session_of session.now) }
    requires met { base_violation (session_of session.now) ≡ None }
    requires base { base ≡ (session_of session.now).base }
    ensures { IfOk result (λ output. view_of output ≡
        absent_output (serial_told budget (session_of session.now))) }
{
    let told = serial_over(alloc, session, base, budget)?;
    absent_output(alloc, &told)
}

// The output for a session whose base violates no mapping.
fn over_base(
    alloc: Global,
    session: &Session,
    base: IndexedFacts,
    budget: Budget,
    fact: &RawFact,
) -> Result<Output, Memory>
    requires valid { IsSession (session_of session.now) }
    requires met { base_violation (session_of session.now) ≡ None }
    requires base { base ≡ (session_of session.now).base }
    ensures { IfOk result (λ output. view_of output ≡
        explained_of budget (fact_meant fact.now) (session_of session.now)) }
{
    match tuple_in(alloc, &session.schema, fact)? {
        Some(tuple) => with_reasons(alloc, session, base, budget, &tuple),
        None => without_reasons(alloc, session, base, budget),
    }
}

// The output for a session.
fn output_of(
    alloc: Global,
    session: &Session,
    budget: Budget,
    fact: &RawFact,
) -> Result<Output, Memory>
    requires valid { IsSession (session_of session.now) }
    ensures { IfOk result (λ output. view_of output ≡
        explained budget (fact_meant fact.now) (session_of session.now)) }
{
    let base = base_of(alloc, session)?;
    match base_violation(alloc, session, &base)? {
        Some(violated) => base_refusal(alloc, &session.schema, &violated),
        None => over_base(alloc, session, base, budget, fact),
    }
}

impl<'a> SessionCommand for Explain<'a> {
    ghost makes = { λ c s output. output ≡ explained c.budget (fact_meant c.fact.now) s };

    fn make(&self, alloc: Global, session: Session) -> Result<Output, Memory> {
        output_of(alloc, &session, self.budget, self.fact)
    }
}
