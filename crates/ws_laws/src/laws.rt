//! The laws of whole logs.
ghost use Rattle.ws_laws.specs.Examples.{FoldIsWorked};
ghost use Rattle.ws_laws.specs.Folds.{FoldsAreNotSeen, UndosSeeNoFold};
ghost use Rattle.ws_laws.specs.Giving.{LogsKeepPlaces, NamesAreGivenOnce};
ghost use Rattle.ws_laws.specs.Keeping.{LogsKeepMappings};
ghost use Rattle.ws_laws.specs.Replays.{RedosBringBack, ReplaysKeepWhatStands, UndosTakeBack};

/// The log is the truth: if its lines are fit and its answers are heard, what stands and waits after a log is what a replay of
/// the whole log gives.
pub fn replays_keep_what_stands()
    ensures { ReplaysKeepWhatStands }
{}

/// If an update is said under a new number and then undone, what stands and waits is what stood and waited before. The lines
/// before it are fit, and their answers are heard.
pub fn undos_take_back()
    ensures { UndosTakeBack }
{}

/// If updates that are not undone are undone and then done again, what stands and waits is what stood and waited before. The
/// lines before them are fit, and their answers are heard.
pub fn redos_bring_back()
    ensures { RedosBringBack }
{}

/// If the mappings in force hold when a log is opened, then those that are in force after the log hold.
pub fn logs_keep_mappings()
    ensures { LogsKeepMappings }
{}

/// A fold that keeps all answers and places is not seen: what is said, answered and declared after it has the same effect as
/// without it.
pub fn folds_are_not_seen()
    ensures { FoldsAreNotSeen }
{}

/// No undo, redo or taking back of what was said after a fold sees the fold, if the lines are fit, and the answers before the fold
/// are heard.
pub fn undos_see_no_fold()
    ensures { UndosSeeNoFold }
{}

/// A log only adds places to the end of each update's table.
pub fn logs_keep_places()
    ensures { LogsKeepPlaces }
{}

/// A place that an update gave to a cause is never given to another cause, whatever the log says.
pub fn names_are_given_once()
    ensures { NamesAreGivenOnce }
{}

/// A log worked line by line: a question, its answer, an undo and a redo, and a fold before and after the answer.
pub fn fold_is_worked()
    ensures { FoldIsWorked }
{}
