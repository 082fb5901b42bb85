//! Laws on verdicts.
ghost use Rattle.std.specs.Prelude.{◌≡◌, ◌≤◌, ℕ, List, length};
ghost use Rattle.std.specs.List.{AllByRecursion};
ghost use Rattle.audit_claims.specs.Claimed.{IsPrintable};
ghost use Rattle.def_history.specs.PlainEntries.{PlainEntry};
ghost use Rattle.audit_trace.specs.Traces.{trace_text};
ghost use Rattle.audit_claims.specs.Verdicts.{IsHistory, IsVerdict, Trial, Verdict, Yes, is_quiet_after};

use crate::{lines_claim_one_event, printed_entries_are_claimed};
use def_history::cores::entries_are_plain;

/// A text has at most one verdict: it is the trace of one history, or it has one first fault.
pub fn verdicts_are_one()
    ensures { (t : Trial) (text : List ℕ) (v w : Verdict) →
        IsVerdict t text v → IsVerdict t text w → v ≡ w }
{
    lines_claim_one_event();
    entries_are_plain();
}

/// The trace of a legal history has the verdict yes, if all admissions of the session come first and its entries can be printed.
pub fn histories_have_their_verdict()
    ensures { (t : Trial) (H : List PlainEntry) → IsHistory t.over H →
        length t.over.requests ≤ length H → AllByRecursion (IsPrintable t.relations) H →
        IsVerdict t (trace_text t.relations H) (Yes (length H) (is_quiet_after t.over H)) }
{
    printed_entries_are_claimed();
}
