//! The command `drill`.
ghost use Rattle.std.specs.Prelude.{◌≡◌, None, [], IfOk};
ghost use Rattle.cmd_frame.specs.Devices.{change, no_input};
ghost use Rattle.cmd_frame.specs.Outputs.{view_of};
ghost use Rattle.cmd_frame.specs.Rows.{Row};
ghost use Rattle.def_language.specs.Validity.{IsSession};
ghost use Rattle.chase_update.specs.Results.{result_of};
ghost use Rattle.lang_report.specs.Results.{serial_told};
ghost use Rattle.lang_session.specs.Base.{base_violation};
ghost use Rattle.lang_session.specs.Meanings.{session_of};
ghost use Rattle.cmd_threads.specs.Drilling.{drill_told, drilling, summary_output};

use crate::Crew;
use base_devices::Sink;
use base_limits::Budget;
use base_types::Memory;
use chase_update::SessionResult;
use cmd_frame::{Failure, Output, Status, deliver, fail};
use cmd_plain::ending_by;
use lang_session::Session;
use run_drill::{Count, drill, summary_text};
use std::alloc::Global;
use std::sync::Wait;
use std::thread::Threads;
use std::time::Clock;
use work_loop::Gate;
use work_session::worked;

/// `drill`: generates a session from a seed, lets workers run its updates, each worker in a thread of its own, and prints a
/// summary. It says how many updates ended in each way, the steps that they made, the nulls that they drew, and the tuples that
/// they left.
#[derive(Clone, Copy, Debug)]
pub struct Drill {
    /// The workers that run the updates, and their settings.
    pub crew: Crew,
    /// The number of steps that an update may make.
    pub budget: Budget,
    /// The number of updates that are generated.
    pub count: Count,
    /// The seed of the generator.
    pub seed: u64,
}

// The output for a run of the generated session.
fn summary_output(
    alloc: Global,
    count: Count,
    seed: u64,
    told: &SessionResult,
) -> Result<Output, Memory>
    ensures { IfOk result (λ output. view_of output ≡
        summary_output count seed (result_of told.now)) }
{
    let text = summary_text(alloc, count.number(), seed, told)?;
    Ok(Output::Text(ending_by(told), text))
}

impl Drill {
    // Lets the workers run the updates of a session, and gives its result.
    fn take<R: Threads + Wait + Clock + Sync, G: Gate + Sync>(
        self,
        rt: &R,
        gate: &G,
        alloc: Global,
        session: &Session,
    ) -> Result<SessionResult, Memory>
        requires valid { IsSession (session_of session.now) }
        requires met { base_violation (session_of session.now) ≡ None }
        ensures { IfOk result (λ told. result_of told ≡
            serial_told self.budget (session_of session.now)) }
    {
        let settings = self.crew.settings();
        let seats = self.crew.seats();
        let run = worked(rt, gate, alloc, session, settings, self.budget, seats)?;
        run.result(alloc)
    }

    // Lets the workers run the updates of the generated session.
    fn work<R: Threads + Wait + Clock + Sync, G: Gate + Sync>(
        self,
        rt: &R,
        gate: &G,
        alloc: Global,
    ) -> Result<SessionResult, Memory>
        ensures { IfOk result (λ told. result_of told ≡
            drill_told self.budget self.count self.seed) }
    {
        let session = drill(alloc, self.count, self.seed)?;
        self.take(rt, gate, alloc, &session)
    }

    // The output for the generated session.
    fn make<R: Threads + Wait + Clock + Sync, G: Gate + Sync>(
        self,
        rt: &R,
        gate: &G,
        alloc: Global,
    ) -> Result<Output, Memory>
        ensures { IfOk result (λ output.
            drilling self.budget self.count self.seed [] (view_of output)) }
    {
        let count = self.count;
        let seed = self.seed;
        let told = self.work(rt, gate, alloc)?;
        summary_output(alloc, count, seed, &told)
    }

    /// Runs the generated session, and writes its summary to `out`, as `cmd_frame::perform_alone` does for a command without
    /// threads: each status has its row, and nothing is read. Each worker passes the gate around its work on a ticket. The call
    /// may wait.
    pub fn perform<R: Threads + Wait + Clock + Sync, G: Gate + Sync, O: Sink, E: Sink>(
        self,
        rt: &R,
        gate: &G,
        alloc: Global,
        out: &mut O,
        err: &mut E,
    ) -> Status
        ensures row { Row result (drilling self.budget self.count self.seed) no_input
            (change O.taken O.fault_count out.old out.new)
            (change E.taken E.fault_count err.old err.new) }
    {
        match self.make(rt, gate, alloc) {
            Ok(output) => deliver(output, out, err),
            Err(_) => fail(Failure::OutOfMemory, err),
        }
    }
}
