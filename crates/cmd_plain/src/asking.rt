//! The command `ask`: the certain answers to a query over what a session's updates leave.
ghost use Rattle.std.specs.Prelude.{◌≡◌, ◌++◌, ◌∷◌, [], None, IfOk, codes, true};
ghost use Rattle.run_ask.specs.Asks.{query_of};
ghost use Rattle.run_ask.specs.Bound.{written_of};
ghost use Rattle.run_ask.specs.Printed.{answers_text as text_of_answers};
ghost use Rattle.run_ask.specs.Written.{is_ask};
ghost use Rattle.base_types.specs.Contents.{facts_of};
ghost use Rattle.run_ask.specs.Naive.{IsSafe, certain_answers};
ghost use Rattle.cmd_frame.specs.Outputs.{view_of};
ghost use Rattle.def_language.specs.Faults.{Arity, UnknownRelation, kind_text};
ghost use Rattle.def_language.specs.Validity.{IsSession};
ghost use Rattle.chase_update.specs.Results.{result_of};
ghost use Rattle.lang_report.specs.Results.{serial_told};
ghost use Rattle.lang_session.specs.Base.{base_violation};
ghost use Rattle.lang_session.specs.Meanings.{session_of};
ghost use Rattle.cmd_plain.specs.Asked.{answers_output, asked, asked_of, query_line};

use crate::base::met_base;
use crate::reading::SessionCommand;
use crate::runs::ending_by;
use base_limits::Budget;
use base_types::{Memory, Name, TupleList};
use chase_update::SessionResult;
use cmd_frame::{Output, Refusal};
use lang_session::Session;
use run_ask::{Ask as BoundAsk, AskRefusal, RawAsk, answers_text, bind_ask, certain};
use run_serial::serial_over;
use set_facts::{IndexedFacts, PlainFacts};
use std::alloc::Global;

/// `ask`: runs the updates whole, one after the other, and prints the certain answers to a query over the repository that they
/// leave.
#[derive(Drop)]
pub struct Ask<'a> {
    /// The number of steps that an update may make.
    pub budget: Budget,
    /// The query, as it was read from a text.
    pub query: &'a RawAsk,
    ghost spelled: { is_ask (written_of query.now) ≡ true },
}

// The text of the certain answers over the tuples of a list.
fn answers(alloc: Global, query: &BoundAsk, tuples: &TupleList) -> Result<Vec<u8>, Memory>
    requires { IsSafe (query_of query.now) }
    ensures { IfOk result (λ text. text.items
        ≡ text_of_answers (certain_answers (query_of query.now) (facts_of tuples.now))) }
{
    let facts = PlainFacts::of_list(alloc, tuples)?;
    let indexed = IndexedFacts::of(alloc, facts)?;
    let rows = certain(alloc, query, &indexed)?;
    answers_text(alloc, &rows)
}

// The output of a run that was asked a query.
fn answers_output(alloc: Global, query: &BoundAsk, told: &SessionResult) -> Result<Output, Memory>
    requires { IsSafe (query_of query.now) }
    ensures { IfOk result
        (λ output. view_of output ≡ answers_output (result_of told.now) (query_of query.now)) }
{
    let text = answers(alloc, query, &told.repository)?;
    Ok(Output::Text(ending_by(told), text))
}

// The line for `err` with these words on a query.
fn query_line(alloc: Global, words: &[u8]) -> Result<Vec<u8>, Memory>
    ensures { IfOk result
        (λ line. line.items ≡ codes "youtopia: query: " ++ (words.now ++ 10 ∷ [])) }
{
    let mut line = Vec::new(alloc);
    line.extend_from_slice(b"youtopia: query: ")?;
    line.extend_from_slice(words)?;
    line.push(b'\n')?;
    Ok(line)
}

// The line that says that no relation has the name.
fn unknown_line(alloc: Global, name: &Name) -> Result<Vec<u8>, Memory>
    ensures { IfOk result (λ line. line.items ≡ query_line (UnknownRelation name.now.items)) }
{
    let mut words = Vec::new(alloc);
    words.extend_from_slice(b"unknown relation ")?;
    words.extend_from_slice(name.as_slice())?;
    query_line(alloc, &words)
}

// The words that say that the relation has another number of columns.
fn arity_words(alloc: Global, name: &Name, expected: u16, found: u64) -> Result<Vec<u8>, Memory>
    ensures { IfOk result
        (λ words. words.items ≡ kind_text (Arity name.now.items expected found)) }
{
    let columns = format!(in alloc; " has {expected} columns, found {found}")?;
    let mut words = Vec::new(alloc);
    words.extend_from_slice(b"relation ")?;
    words.extend_from_slice(name.as_slice())?;
    words.extend_from_slice(columns.as_bytes())?;
    Ok(words)
}

// The line that says that the relation has another number of columns.
fn arity_line(alloc: Global, name: &Name, expected: u16, found: u64) -> Result<Vec<u8>, Memory>
    ensures { IfOk result
        (λ line. line.items ≡ query_line (Arity name.now.items expected found)) }
{
    let words = arity_words(alloc, name, expected, found)?;
    query_line(alloc, &words)
}

// The output for a session whose relations fit the query.
fn over_bound(
    alloc: Global,
    session: &Session,
    base: IndexedFacts,
    budget: Budget,
    query: &BoundAsk,
) -> Result<Output, Memory>
    requires safe { IsSafe (query_of query.now) }
    requires valid { IsSession (session_of session.now) }
    requires met { base_violation (session_of session.now) ≡ None }
    requires base { base ≡ (session_of session.now).base }
    ensures { IfOk result (λ output. view_of output
        ≡ answers_output (serial_told budget (session_of session.now)) (query_of query.now)) }
{
    let told = serial_over(alloc, session, base, budget)?;
    answers_output(alloc, query, &told)
}

// The output for a session whose base violates no mapping.
fn over_base(
    alloc: Global,
    session: &Session,
    base: IndexedFacts,
    budget: Budget,
    query: &RawAsk,
) -> Result<Output, Memory>
    requires spelled { is_ask (written_of query.now) ≡ true }
    requires valid { IsSession (session_of session.now) }
    requires met { base_violation (session_of session.now) ≡ None }
    requires base { base ≡ (session_of session.now).base }
    ensures { IfOk result (λ output. view_of output
        ≡ asked_of budget (written_of query.now) (session_of session.now)) }
{
    match bind_ask(alloc, &session.schema, query) {
        Ok(bound) => over_bound(alloc, session, base, budget, &bound),
        Err(AskRefusal::UnknownRelation(name)) => Ok(Output::Refused(
            Refusal::QueryRefused,
            unknown_line(alloc, &name)?,
        )),
        Err(
            AskRefusal::Arity {
                name,
                expected,
                found,
            },
        ) => Ok(Output::Refused(
            Refusal::QueryRefused,
            arity_line(alloc, &name, expected, found)?,
        )),
        Err(AskRefusal::Memory) => Err(Memory),
    }
}

// The output of `ask` for the session.
fn asked(alloc: Global, session: &Session, budget: Budget, query: &RawAsk) -> Result<Output, Memory>
    requires spelled { is_ask (written_of query.now) ≡ true }
    requires valid { IsSession (session_of session.now) }
    ensures asked { IfOk result (λ output. view_of output
        ≡ asked budget (written_of query.now) (session_of session.now)) }
{
    match met_base(alloc, session)? {
        Ok(base) => over_base(alloc, session, base, budget, query),
        Err(refusal) => Ok(refusal),
    }
}

impl<'a> SessionCommand for Ask<'a> {
    ghost makes = { λ c s output. output ≡ asked c.budget (written_of c.query.now) s };

    fn make(&self, alloc: Global, session: Session) -> Result<Output, Memory> {
        asked(alloc, &session, self.budget, self.query)
    }
}
