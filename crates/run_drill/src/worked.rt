//! A worked row of the summary.
ghost use Rattle.run_drill.specs.SummaryRows.{WorkedSummary};

/// The summary of a drill of one update, as an independent implementation writes it.
pub fn worked_summary()
    ensures { WorkedSummary }
{}
