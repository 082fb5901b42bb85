//! The laws of logs and the states that they stand for.
ghost use Rattle.def_workspace.specs.KeepLaws.{LinesKeepMappings, ReplaysKeepMappings, RunsKeepMappings, WaitingChangesNothing};
ghost use Rattle.def_workspace.specs.NameLaws.{RunsKeepPlaces};
ghost use Rattle.def_workspace.specs.Rows.{Worked};
ghost use Rattle.def_workspace.specs.RunLaws.{OpsAreSerial};
ghost use Rattle.def_workspace.specs.UndoLaws.{UndoTakesBack};

/// An op that comes to rest agrees with the serial machine: the machine ends at the same state if it takes the op's operation
/// whole over the same repository, with the choices that the op took.
pub fn ops_are_serial()
    ensures { OpsAreSerial }
{}

/// If the mappings in force hold, they hold after a run of an update that is done.
pub fn runs_keep_mappings()
    ensures { RunsKeepMappings }
{}

/// If the mappings in force hold, they hold after each line that counts.
pub fn lines_keep_mappings()
    ensures { LinesKeepMappings }
{}

/// If the mappings in force held at the last fold, they hold after a replay.
pub fn replays_keep_mappings()
    ensures { ReplaysKeepMappings }
{}

/// An update that waits changes nothing: after a run that is not done, the state is the same as before.
pub fn waiting_changes_nothing()
    ensures { WaitingChangesNothing }
{}

/// An undo of an update that was just said, under a new number, has the result of a replay of the log before the update. That is
/// the state before the update, if the replay of its log gives that state.
pub fn undo_takes_back()
    ensures { UndoTakesBack }
{}

/// A log worked line by line: a question, its answer, new unknowns, an undo and a redo.
pub fn log_is_worked()
    ensures { Worked }
{}

/// However a run ends, it only adds places to the end of the update's table, and places rise. So no place is ever given to
/// another cause.
pub fn runs_keep_places()
    ensures { RunsKeepPlaces }
{}
