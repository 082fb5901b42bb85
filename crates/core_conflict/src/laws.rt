//! Which values stay, and worked rows. Each law is the contract of a function that does nothing.
ghost use Rattle.core_conflict.specs.Concerns.{UnmetValuesStay};
ghost use Rattle.core_conflict.specs.Rows.{ConcernRows};

/// A read that no write meets keeps its value. Let two repositories have the same tuples except the tuples of the writes. If
/// the read's reply is the value of its query over the first, it is also the value over the second.
pub fn unmet_values_stay()
    ensures { UnmetValuesStay }
{}

/// Which tuples concern which queries, and which writes meet which reads, row by row.
pub fn tuples_concern_queries()
    ensures { ConcernRows }
{}
