//! Histories as they are kept: entries as plain data, which determine the updates that they leave.
ghost use Rattle.def_history.specs.CoreLaws.{HistoriesAreKept};
ghost use Rattle.def_history.specs.PlainEntries.{EntriesArePlain};

/// An entry and its plain form determine each other.
pub fn entries_are_plain()
    ensures { EntriesArePlain }
{}

/// Plain entries that are a legal history determine the updates that they leave. With the entry of an allowed event they are a
/// longer legal history. Handing in one more update does not change a history.
pub fn histories_are_kept()
    ensures { HistoriesAreKept }
{}
