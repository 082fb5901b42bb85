//! The violations that an update has caused, in the field's terms, and the first of them.
//!
//! An update looks only at the violations that it caused itself. `def_chase` defines these by a computed test; here they are
//! defined by the writes and the bindings of the mapping, and the laws show that the two agree. The definitions stand in
//! `specs/Counted.antt`. Each function is a law: its contract is the statement, and its body is empty.
ghost use Rattle.def_steps.specs.Counted.{ScopesDecide, FirstInScope};

/// The test of a scope decides which violations count in it. In the full scope all do. Forward, a tuple of the image must be one
/// whose last write by the update was an insertion. Backward, some binding with the image must make a right atom a tuple that the
/// update deleted.
pub fn violations_in_scope()
    ensures { ScopesDecide }
{}

/// The first violation of a scope is one that counts in it, with the least image; if none is found, none counts.
pub fn first_in_scope()
    ensures { FirstInScope }
{}
