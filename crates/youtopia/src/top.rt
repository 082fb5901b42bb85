//! The top call: `run` and `drill` by workers, and every other command by `plain`.
ghost use Rattle.std.specs.Prelude.{IfNone, IfOk, IfSome, map, string_bytes};
ghost use Rattle.cmd_frame.specs.Devices.{change};
ghost use Rattle.youtopia.specs.Calls.{AskForNoWork, AskForWork, Calls};
ghost use Rattle.youtopia.specs.Promises.{Completes, Drills, Headline, LeavesWhatHolds, Serves};

use crate::plain::plain;
use crate::workers::{ByWorkers, by_workers, work};
use base_devices::{Sink, Source};
use base_types::Memory;
use cmd_frame::{Failure, Status, fail};
use cmd_plain::{
    audited_inputs_have_one_output, performed_runs_write_what_holds,
    recovered_inputs_have_one_status,
};
use cmd_threads::{performed_runs_write_their_trace, runs_have_the_serial_status};
use cmd_words::{
    Request, WordsRefusal, read_words, words_are_answered_or_refused, words_ask_for_one_thing,
};
use std::alloc::Global;
use std::sync::Wait;
use std::thread::Threads;
use std::time::Clock;
use work_loop::Gate;

// The work that the words ask for, if they ask for a command that needs workers.
fn work_asked_for<'a>(alloc: Global, words: &'a [String]) -> Result<Option<ByWorkers<'a>>, Memory>
    ensures some { IfOk result
        (λ found. IfSome found (AskForWork (map string_bytes words.entry.now))) }
    ensures none { IfOk result
        (λ found. IfNone found (AskForNoWork (map string_bytes words.entry.now))) }
{
    words_are_answered_or_refused();
    words_ask_for_one_thing();
    match read_words(alloc, words) {
        Ok(Request::Command(options)) => Ok(by_workers(options)),
        Ok(Request::Help) => Ok(None),
        Ok(Request::Version) => Ok(None),
        Err(WordsRefusal::Usage) => Ok(None),
        Err(WordsRefusal::Memory) => Err(Memory),
    }
}

// Does what the words ask for, or refuses them.
fn answer<R: Threads + Wait + Clock + Sync, G: Gate + Sync, S: Source, O: Sink, E: Sink>(
    rt: &R,
    gate: &G,
    alloc: Global,
    words: &[String],
    source: &mut S,
    out: &mut O,
    err: &mut E,
) -> Status
    ensures calls { Calls (map string_bytes words.now) result
        (change S.left S.fault_count source.old source.new)
        (change O.taken O.fault_count out.old out.new)
        (change E.taken E.fault_count err.old err.new) }
{
    words_are_answered_or_refused();
    match work_asked_for(alloc, words) {
        Ok(Some(asked)) => work(rt, gate, alloc, asked, source, out, err),
        Ok(None) => plain(alloc, words, source, out, err),
        Err(_) => fail(Failure::OutOfMemory, err),
    }
}

/// Does what the words after the program's name ask for, from the source to the two sinks, and returns the status with which the
/// program ends. `run` and `drill` have one thread for each worker, which passes the gate around its work on a ticket; every
/// other command is done by `plain`. The row of each status says what was read, and what `out` and `err` took. The call may wait.
///
/// Whatever the schedule of the workers, `run` writes the serial machine's result on the session that it read. The trace, if it
/// is asked for, is the text of a legal history that ends quiet. `drill` reads nothing, and writes the summary of the serial
/// machine's result on the session that it generates. If no device fails, the status is the one of the output that is due, or
/// `OutOfMemory`. For a session whose base meets its mappings, the output due of a run ends, or stops at a question. In the
/// repository that a run writes every mapping in force holds.
pub fn youtopia<R: Threads + Wait + Clock + Sync, G: Gate + Sync, S: Source, O: Sink, E: Sink>(
    rt: &R,
    alloc: Global,
    words: &[String],
    source: &mut S,
    out: &mut O,
    err: &mut E,
    gate: &G,
) -> Status
    ensures calls { Calls (map string_bytes words.now) result
        (change S.left S.fault_count source.old source.new)
        (change O.taken O.fault_count out.old out.new)
        (change E.taken E.fault_count err.old err.new) }
    ensures headline { Headline (map string_bytes words.now) result
        (change S.left S.fault_count source.old source.new)
        (change O.taken O.fault_count out.old out.new) }
    ensures drills { Drills (map string_bytes words.now) result
        (change O.taken O.fault_count out.old out.new) }
    ensures complete { Completes (map string_bytes words.now) result
        (change S.left S.fault_count source.old source.new)
        (change O.taken O.fault_count out.old out.new) }
    ensures serves { Serves (map string_bytes words.now) result
        (change S.left S.fault_count source.old source.new)
        (change O.taken O.fault_count out.old out.new) }
    ensures holds { LeavesWhatHolds (map string_bytes words.now) result
        (change S.left S.fault_count source.old source.new)
        (change O.taken O.fault_count out.old out.new) }
{
    words_are_answered_or_refused();
    words_ask_for_one_thing();
    runs_have_the_serial_status();
    performed_runs_write_their_trace();
    performed_runs_write_what_holds();
    recovered_inputs_have_one_status();
    audited_inputs_have_one_output();
    answer(rt, gate, alloc, words, source, out, err)
}
