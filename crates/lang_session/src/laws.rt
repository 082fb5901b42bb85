//! Laws of valid sessions, each as the contract of a function that does nothing.
ghost use Rattle.lang_session.specs.Laws.{SuitTheChase, BaseHolds};

/// No mapping of a valid session has a null among its constants, no tuple or atom of it is of the relation that says
/// which mappings are in force, and each update puts in force only the mapping that it adds.
pub fn sessions_suit_the_chase()
    ensures { SuitTheChase }
{}

/// If the base of a valid session violates no mapping that is in force from the start, all mappings in force hold in it, which is
/// the premise of the serial machine's laws.
pub fn base_holds()
    ensures { BaseHolds }
{}
