//! What follows from the entries of a legal history, as the contracts of functions that do nothing.
ghost use Rattle.work_stale.specs.Laws.{EntriesTellTheTrails, ReadyAttemptsDoTheirUpdate, StepsStayUnlessStale};

/// The trail of each update is what the entries show of its writes since the last entry that took them away.
pub fn entries_tell_the_trails()
    ensures { EntriesTellTheTrails }
{}

/// The attempt of a ready update does the update's operation. So the attempt alone determines the queries of its next step.
pub fn ready_attempts_do_their_update()
    ensures { ReadyAttemptsDoTheirUpdate }
{}

/// A step that was planned after the first entries of a history may still be the update's step after the later ones. It is, if
/// none of these is a step or a withdrawal of the update, and none makes the step stale by its reads. Of the reads only their
/// queries matter.
pub fn steps_stay_unless_stale()
    ensures { StepsStayUnlessStale }
{}
