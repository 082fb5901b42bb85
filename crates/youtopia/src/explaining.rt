//! The command `explain`, with the fact that its option spells.
ghost use Rattle.std.specs.Prelude.{◌≤◌, IfNone, IfOk, IfSome};
ghost use Rattle.cmd_frame.specs.Devices.{change};
ghost use Rattle.lang_forms.specs.Views.{fact_of as fact_meant};
ghost use Rattle.youtopia.specs.Calls.{AsksWhy, Does, LacksFact};

use base_devices::{Sink, Source};
use base_limits::Budget;
use base_types::Memory;
use cmd_frame::{Failure, Status, fail, perform};
use cmd_plain::{Explain, OnSession};
use cmd_words::{CommandName, Options};
use lang_reader::{RawFact, read_fact};
use std::alloc::Global;

// The fact that the option spells, if it spells one.
fn fact_in(alloc: Global, options: &Options<'_>) -> Result<Option<RawFact>, Memory>
    ensures some { IfOk result
        (λ found. IfSome found (λ raw. AsksWhy options.now (fact_meant raw))) }
    ensures none { IfOk result (λ found. IfNone found (LacksFact options.now)) }
{
    match options.tuple {
        Some(text) => read_fact(alloc, text.as_bytes()),
        None => Ok(None),
    }
}

/// Performs `explain` between the devices, with the fact of the words. Words that spell none are refused like wrong words.
pub(crate) fn explain_fact<S: Source, O: Sink, E: Sink>(
    alloc: Global,
    options: &Options<'_>,
    source: &mut S,
    out: &mut O,
    err: &mut E,
) -> Status
    requires some { 1 ≤ options.now.steps }
    requires most { options.now.steps ≤ 300 }
    ensures explains { Does CommandName.Explain options.now result
        (change S.left S.fault_count source.old source.new)
        (change O.taken O.fault_count out.old out.new)
        (change E.taken E.fault_count err.old err.new) }
{
    match fact_in(alloc, options) {
        Ok(Some(fact)) => {
            let command = Explain {
                budget: Budget::new(options.steps),
                fact: &fact,
            };
            perform(alloc, &OnSession(command), source, out, err)
        }
        Ok(None) => fail(Failure::Usage, err),
        Err(_) => fail(Failure::OutOfMemory, err),
    }
}
