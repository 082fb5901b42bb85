//! The law of queries and answers, as the contract of a function that does nothing.
ghost use Rattle.chase_query.specs.Laws.{ValuesAreOfTheirKind};

/// The value of a query over a repository is of its kind, whatever the own writes and the scope.
pub fn values_are_of_their_kind()
    ensures { ValuesAreOfTheirKind }
{}
