//! The meaning of versions. Each law is the contract of a function that does nothing.
ghost use Rattle.set_versions.specs.Standing.{SeenLaw, BelowLaw};

/// An update sees the base with the writes of the lower updates, in the order of their numbers.
pub fn seen_is_applied()
    ensures { SeenLaw }
{}

/// In a history of the chase an update sees the repository below it.
pub fn below_is_seen()
    ensures { BelowLaw }
{}
