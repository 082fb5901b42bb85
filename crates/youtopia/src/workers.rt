//! The commands that need workers.
ghost use Rattle.std.specs.Prelude.{◌≡◌, IfNone, IfSome, false};
ghost use Rattle.cmd_frame.specs.Devices.{change, no_input};
ghost use Rattle.cmd_frame.specs.Rows.{Row};
ghost use Rattle.core_queue.specs.Settings.{settings_of};
ghost use Rattle.cmd_words.specs.Meaning.{AreInRange};
ghost use Rattle.cmd_words.specs.declared.names.CommandName.TheVariants.{Drill, Run};
ghost use Rattle.youtopia.specs.Calls.{Does, DoesWork, HasRangesIn, IsNamedBy, is_by_workers, makes, settings_in};

use base_devices::{Sink, Source};
use base_limits::Budget;
use cmd_frame::Status;
use cmd_threads::Crew;
use cmd_words::{CommandName, Deps, Options};
use core_queue::Settings;
use run_drill::Count;
use std::alloc::Global;
use std::sync::Wait;
use std::thread::Threads;
use std::time::Clock;
use work_loop::Gate;

/// A command that needs workers, with its options.
#[derive(Drop)]
pub enum ByWorkers<'a> {
    /// Runs a session's updates.
    Run(Options<'a>),
    /// Runs the updates of a generated session.
    Drill(Options<'a>),
}

/// The work that the options name, if their command needs workers.
pub(crate) fn by_workers(options: Options<'_>) -> Option<ByWorkers<'_>>
    ensures some { IfSome result (IsNamedBy options.entry) }
    ensures none { IfNone result (is_by_workers options.entry.command ≡ false) }
{
    match options.command {
        CommandName::Run => Some(ByWorkers::Run(options)),
        CommandName::Drill => Some(ByWorkers::Drill(options)),
        _ => None,
    }
}

// The settings that the options name.
fn settings_in(options: &Options<'_>) -> Settings
    ensures same { settings_of result ≡ settings_in options.now }
    ensures retries { result.retries ≡ options.now.retries }
{
    let deps = match options.deps {
        Deps::Coarse => core_queue::Deps::Coarse,
        Deps::Precise => core_queue::Deps::Precise,
    };
    Settings {
        retries: options.retries,
        deps,
    }
}

/// Performs the work between the devices.
pub(crate) fn work<R: Threads + Wait + Clock + Sync, G: Gate + Sync, S: Source, O: Sink, E: Sink>(
    rt: &R,
    gate: &G,
    alloc: Global,
    asked: ByWorkers<'_>,
    source: &mut S,
    out: &mut O,
    err: &mut E,
) -> Status
    requires ranges { HasRangesIn asked }
    ensures does { DoesWork asked.entry result
        (change S.left S.fault_count source.old source.new)
        (change O.taken O.fault_count out.old out.new)
        (change E.taken E.fault_count err.old err.new) }
{
    match asked {
        ByWorkers::Run(options) => run(rt, gate, alloc, &options, source, out, err),
        ByWorkers::Drill(options) => drill(rt, gate, alloc, &options, out, err),
    }
}

// Performs `run` with these options between the devices.
fn run<R: Threads + Wait + Clock + Sync, G: Gate + Sync, S: Source, O: Sink, E: Sink>(
    rt: &R,
    gate: &G,
    alloc: Global,
    options: &Options<'_>,
    source: &mut S,
    out: &mut O,
    err: &mut E,
) -> Status
    requires ranges { AreInRange options.now }
    ensures does { Does Run options.now result
        (change S.left S.fault_count source.old source.new)
        (change O.taken O.fault_count out.old out.new)
        (change E.taken E.fault_count err.old err.new) }
{
    let command = cmd_threads::Run {
        crew: Crew::new(options.workers, settings_in(options)),
        budget: Budget::new(options.steps),
        trace: options.trace,
    };
    command.perform(rt, gate, alloc, source, out, err)
}

// Performs `drill` with these options. It reads nothing.
fn drill<R: Threads + Wait + Clock + Sync, G: Gate + Sync, O: Sink, E: Sink>(
    rt: &R,
    gate: &G,
    alloc: Global,
    options: &Options<'_>,
    out: &mut O,
    err: &mut E,
) -> Status
    requires ranges { AreInRange options.now }
    ensures row { Row result (makes Drill options.now) no_input
        (change O.taken O.fault_count out.old out.new)
        (change E.taken E.fault_count err.old err.new) }
{
    let command = cmd_threads::Drill {
        crew: Crew::new(options.workers, settings_in(options)),
        budget: Budget::new(options.steps),
        count: Count::new(options.count),
        seed: u64::from(options.seed),
    };
    command.perform(rt, gate, alloc, out, err)
}
