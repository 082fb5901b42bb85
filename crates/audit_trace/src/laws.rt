//! Worked examples of a trace's text.
ghost use Rattle.audit_trace.specs.TraceRows.{TraceRows};

/// The trace of one update that repairs a violation, and a line of each kind of entry, byte by byte.
pub fn worked_traces()
    ensures { TraceRows }
{}
