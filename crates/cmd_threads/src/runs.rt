//! The command `run`.
ghost use Rattle.std.specs.Prelude.{◌≡◌, ◌≤◌, ◌++◌, length, map, None, IfOk, IfErr};
ghost use Rattle.cmd_frame.specs.Devices.{change};
ghost use Rattle.cmd_frame.specs.Outputs.{view_of};
ghost use Rattle.cmd_frame.specs.Rows.{Makes, Row};
ghost use Rattle.cmd_frame.specs.declared.performing.TheConstants.{INPUT_LIMIT};
ghost use Rattle.cmd_plain.specs.Commands.{on_session_by};
ghost use Rattle.core_entries.specs.Meanings.{entry_of};
ghost use Rattle.def_language.specs.Validity.{IsSession};
ghost use Rattle.core_queue.specs.Settings.{settings_of};
ghost use Rattle.lang_session.specs.Base.{base_violation};
ghost use Rattle.lang_session.specs.Meanings.{session_of};
ghost use Rattle.cmd_threads.specs.Refusals.{IsRefusal};
ghost use Rattle.cmd_threads.specs.Runs.{RunsTo, meaning, running, trace_part};

use crate::crews::Crew;
use audit_trace::trace_text;
use base_devices::{Sink, Source, read_all};
use base_limits::Budget;
use base_types::Memory;
use cmd_frame::{Failure, INPUT_LIMIT, Output, Status, deliver, fail};
use cmd_plain::{base_refusal, ending_by, fault_refusal};
use core_entries::Entry;
use lang_reader::{ReadFailure, read_session};
use lang_report::result_text;
use lang_schema::Schema;
use lang_session::Session;
use run_base::base_violation;
use run_serial::base_of;
use set_facts::IndexedFacts;
use std::alloc::Global;
use std::mem;
use std::sync::Wait;
use std::thread::Threads;
use std::time::Clock;
use work_loop::Gate;
use work_session::{Answers, WorkedSession, Working, worked_over};

/// `run`: lets workers run the updates, each worker in a thread of its own, and prints how each update ended, where they stopped,
/// if they did, and the repository that they leave. If it is asked for, the trace of the workers' history follows.
#[derive(Clone, Copy, Debug)]
pub struct Run {
    /// The workers that run the updates, and their settings.
    pub crew: Crew,
    /// The number of steps that an update may make.
    pub budget: Budget,
    /// Whether the trace is printed too.
    pub trace: bool,
}

// The base of the session as a set of tuples, if it violates no mapping; otherwise the refusal with the violation.
fn met_base(alloc: Global, session: &Session) -> Result<Result<IndexedFacts, Output>, Memory>
    requires valid { IsSession (session_of session.now) }
    ensures base { IfOk result (λ found. IfOk found (λ base.
        base ≡ (session_of session.now).base)) }
    ensures met { IfOk result (λ found. IfOk found (λ _.
        base_violation (session_of session.now) ≡ None)) }
    ensures violated { IfOk result (λ found. IfErr found (IsRefusal (session_of session.now))) }
{
    let base = base_of(alloc, session)?;
    match base_violation(alloc, session, &base)? {
        Some(violated) => Ok(Err(base_refusal(alloc, &session.schema, &violated)?)),
        None => Ok(Ok(base)),
    }
}

// The text, followed by the trace of the history, if it is asked for.
fn with_trace(
    alloc: Global,
    mut text: Vec<u8>,
    schema: &Schema,
    history: &[Entry],
    trace: bool,
) -> Result<Vec<u8>, Memory>
    ensures { IfOk result (λ more. more.items ≡
        text.items ++ trace_part trace schema.now (map entry_of history.now)) }
{
    if trace {
        text.extend_from_slice(&trace_text(alloc, schema, history)?)?;
    }
    Ok(text)
}

// The output for a session that workers ran.
fn run_output(
    alloc: Global,
    session: &Session,
    run: &WorkedSession<'_>,
    trace: bool,
) -> Result<Output, Memory>
    requires of { run.now.session ≡ session_of session.now }
    ensures { IfOk result (λ output. RunsTo trace run.now.budget run.now.settings
        (session_of session.now) (view_of output)) }
{
    let told = run.result(alloc)?;
    let text = result_text(alloc, session, &told)?;
    let whole = with_trace(alloc, text, &session.schema, run.history(), trace)?;
    let ending = ending_by(&told);
    mem::forget(told);
    Ok(Output::Text(ending, whole))
}

// When answers are delivered: at once, unless the trace is asked for. Then the trace of one worker has the order in which a desk
// gives tickets.
fn answers_for(trace: bool) -> Answers {
    match trace {
        true => Answers::Last,
        false => Answers::AtOnce,
    }
}

impl Run {
    // Lets the workers run the updates of the session, whose base meets its mappings.
    fn work<R: Threads + Wait + Clock + Sync, G: Gate + Sync>(
        self,
        rt: &R,
        gate: &G,
        alloc: Global,
        session: &Session,
        base: IndexedFacts,
    ) -> Result<Output, Memory>
        requires valid { IsSession (session_of session.now) }
        requires met { base_violation (session_of session.now) ≡ None }
        requires base { base ≡ (session_of session.now).base }
        ensures { IfOk result (λ output. RunsTo self.trace self.budget
            (settings_of self.crew.settings) (session_of session.now) (view_of output)) }
    {
        let working = Working {
            settings: self.crew.settings(),
            budget: self.budget,
            seats: self.crew.seats(),
            answers: answers_for(self.trace),
        };
        let run = worked_over(rt, gate, alloc, session, base, working)?;
        let output = run_output(alloc, session, &run, self.trace)?;
        // The process ends with the command, which frees at once what the workers leave.
        mem::forget(run);
        Ok(output)
    }

    // The output for a session.
    fn make<R: Threads + Wait + Clock + Sync, G: Gate + Sync>(
        self,
        rt: &R,
        gate: &G,
        alloc: Global,
        session: &Session,
    ) -> Result<Output, Memory>
        requires valid { IsSession (session_of session.now) }
        ensures { IfOk result (λ output. running self.trace self.budget
            (settings_of self.crew.settings) (session_of session.now) (view_of output)) }
    {
        match met_base(alloc, session)? {
            Ok(base) => Ok(self.work(rt, gate, alloc, session, base)?),
            Err(refused) => Ok(refused),
        }
    }

    // The output for an input. An input that spells no session is refused as by every command on sessions.
    fn make_of<R: Threads + Wait + Clock + Sync, G: Gate + Sync>(
        self,
        rt: &R,
        gate: &G,
        alloc: Global,
        input: &[u8],
    ) -> Result<Output, Memory>
        requires short { length input.now ≤ INPUT_LIMIT }
        ensures { IfOk result (λ output. meaning self input.now (view_of output)) }
    {
        match read_session(alloc, input) {
            Ok(session) => Ok(self.make(rt, gate, alloc, &session)?),
            Err(ReadFailure::Fault(fault)) => Ok(fault_refusal(alloc, &fault)?),
            Err(ReadFailure::Memory) => Err(Memory),
        }
    }

    // Reads all of the source, and makes the output of it.
    fn read_and_run<R: Threads + Wait + Clock + Sync, G: Gate + Sync, S: Source>(
        self,
        rt: &R,
        gate: &G,
        alloc: Global,
        source: &mut S,
    ) -> Result<Output, Failure>
        ensures { Makes result (meaning self)
            (change S.left S.fault_count source.old source.new) }
    {
        let input = read_all(alloc, source, INPUT_LIMIT)?;
        let output = self.make_of(rt, gate, alloc, &input)?;
        Ok(output)
    }

    /// Reads all of `source`, runs the session that it spells, and writes the text to `out` or the refusal to `err`, as
    /// `cmd_frame::perform` does for a command without threads: each status has its row. Each worker passes the gate around its
    /// work on a ticket. The call may wait.
    pub fn perform<R: Threads + Wait + Clock + Sync, G: Gate + Sync, S: Source, O: Sink, E: Sink>(
        self,
        rt: &R,
        gate: &G,
        alloc: Global,
        source: &mut S,
        out: &mut O,
        err: &mut E,
    ) -> Status
        ensures row { Row result (meaning self)
            (change S.left S.fault_count source.old source.new)
            (change O.taken O.fault_count out.old out.new)
            (change E.taken E.fault_count err.old err.new) }
    {
        match self.read_and_run(rt, gate, alloc, source) {
            Ok(output) => deliver(output, out, err),
            Err(failure) => fail(failure, err),
        }
    }
}
