//! The command `audit`, by the terms that its options name.
ghost use Rattle.std.specs.Prelude.{◌≡◌, ◌≤◌};
ghost use Rattle.cmd_frame.specs.Devices.{change};
ghost use Rattle.audit_updates.specs.Settings.{settings_of};
ghost use Rattle.youtopia.specs.Calls.{Does, settings_in};

use audit_updates::Settings;
use audit_verdict::Terms;
use base_devices::{Sink, Source};
use base_limits::Budget;
use cmd_frame::{Status, perform};
use cmd_plain::Audit;
use cmd_words::{CommandName, Deps, Options};
use std::alloc::Global;

// The terms that the options name.
fn terms_in(options: &Options<'_>) -> Terms
    requires some { 1 ≤ options.now.steps }
    requires most { options.now.steps ≤ 300 }
    requires few { options.now.retries ≤ 4 }
    ensures budget { result.budget ≡ options.now.steps }
    ensures settings { settings_of result.settings ≡ settings_in options.now }
{
    let deps = match options.deps {
        Deps::Coarse => audit_updates::Deps::Coarse,
        Deps::Precise => audit_updates::Deps::Precise,
    };
    let settings = Settings {
        retries: options.retries,
        deps,
    };
    Terms::new(Budget::new(options.steps), settings)
}

/// Performs `audit` between the devices: a session, and the trace that follows it, are judged.
pub(crate) fn audit_trace<S: Source, O: Sink, E: Sink>(
    alloc: Global,
    options: &Options<'_>,
    source: &mut S,
    out: &mut O,
    err: &mut E,
) -> Status
    requires some { 1 ≤ options.now.steps }
    requires most { options.now.steps ≤ 300 }
    requires few { options.now.retries ≤ 4 }
    ensures audits { Does CommandName.Audit options.now result
        (change S.left S.fault_count source.old source.new)
        (change O.taken O.fault_count out.old out.new)
        (change E.taken E.fault_count err.old err.new) }
{
    let command = Audit {
        terms: terms_in(options),
    };
    perform(alloc, &command, source, out, err)
}
