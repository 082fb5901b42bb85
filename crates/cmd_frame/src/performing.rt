// A command between its devices.
ghost use Rattle.std.specs.Prelude.{◌≡◌};
ghost use Rattle.cmd_frame.specs.Completeness.{IsComplete};
ghost use Rattle.cmd_frame.specs.Devices.{Tells, change, no_input};
ghost use Rattle.cmd_frame.specs.Outputs.{view_of};
ghost use Rattle.cmd_frame.specs.Rows.{Delivers, Makes, Row};
ghost use Rattle.cmd_frame.specs.Statuses.{line_of, status_of_failure};

use crate::{Command, Failure, Memory, Output, Status};
use base_devices::{Sink, Source, read_all, write_all};
use base_limits::MOST_BYTES;
use std::alloc::Global;

/// The most bytes that an input may have.
pub const INPUT_LIMIT: usize = MOST_BYTES;

/// Reads all of `source`, runs the command on it, and writes its text to `out` or its refusal to `err`. The row of each status
/// says what was read, and what was written to `out` and to `err`. A fault of `err` changes no status; then `err` has a prefix of
/// the line.
pub fn perform<C: Command, S: Source, O: Sink, E: Sink>(
    alloc: Global,
    command: &C,
    source: &mut S,
    out: &mut O,
    err: &mut E,
) -> Status
    ensures row { Row result (C.gives command.now)
        (change S.left S.fault_count source.old source.new)
        (change O.taken O.fault_count out.old out.new)
        (change E.taken E.fault_count err.old err.new) }
    ensures complete { IsComplete result (C.gives command.now)
        (change S.left S.fault_count source.old source.new)
        (change O.taken O.fault_count out.old out.new) }
{
    match read_and_run(alloc, command, source) {
        Ok(output) => deliver(output, out, err),
        Err(failure) => fail(failure, err),
    }
}

/// Runs a command that reads no input, and writes its text to `out` or its refusal to `err`. The
/// rows are those of `perform` with an empty input, so no fault of reading is among them.
pub fn perform_alone<C: Command, O: Sink, E: Sink>(
    alloc: Global,
    command: &C,
    out: &mut O,
    err: &mut E,
) -> Status
    ensures row { Row result (C.gives command.now) no_input
        (change O.taken O.fault_count out.old out.new)
        (change E.taken E.fault_count err.old err.new) }
    ensures complete { IsComplete result (C.gives command.now) no_input
        (change O.taken O.fault_count out.old out.new) }
{
    match command.run(alloc, &[]) {
        Ok(output) => deliver(output, out, err),
        Err(Memory) => fail(Failure::OutOfMemory, err),
    }
}

// Reads all of the source, and makes the command's output of it.
fn read_and_run<C: Command, S: Source>(
    alloc: Global,
    command: &C,
    source: &mut S,
) -> Result<Output, Failure>
    ensures { Makes result (C.gives command.now)
        (change S.left S.fault_count source.old source.new) }
{
    let input = read_all(alloc, source, INPUT_LIMIT)?;
    let output = command.run(alloc, &input)?;
    Ok(output)
}

/// Writes the text of an output to `out`, or the line of its refusal to `err`.
pub fn deliver<O: Sink, E: Sink>(output: Output, out: &mut O, err: &mut E) -> Status
    ensures { Delivers result (view_of output)
        (change O.taken O.fault_count out.old out.new)
        (change E.taken E.fault_count err.old err.new) }
{
    match output {
        Output::Text(ending, text) => match write_all(out, &text) {
            Ok(()) => ending.into(),
            Err(_) => fail(Failure::WriteFault, err),
        },
        Output::Refused(refusal, line) => {
            let _ = write_all(err, &line);
            refusal.into()
        }
    }
}

/// Writes the line of a failure to `err`.
pub fn fail<E: Sink>(failure: Failure, err: &mut E) -> Status
    ensures status { result ≡ status_of_failure failure }
    ensures told { Tells (change E.taken E.fault_count err.old err.new) (line_of failure) }
{
    let _ = write_all(err, failure.line());
    failure.into()
}
