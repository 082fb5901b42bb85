//! What versions hold of a history's updates. The law is the contract of a function that does nothing.
ghost use Rattle.core_cascade.specs.Held.{TrailsAreHeld};

/// Versions of a history's updates hold the trails of the updates above any of them, from its number on.
pub fn trails_are_held()
    ensures { TrailsAreHeld }
{}
