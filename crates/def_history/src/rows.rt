//! Worked histories, computed entry by entry with their causes, compared with the results of an independent implementation.
ghost use Rattle.def_history.specs.AbortRows.{Conflicts, TakenNulls, AddedMappings};
ghost use Rattle.def_history.specs.CascadeRows.{Cascades, TwoLevels};

/// A write changes a value that an ended update had read: that update is restarted, or held if no retry is left.
pub fn conflicts_restart()
    ensures { Conflicts }
{}

/// If an attempt is restarted, the null that it drew is gone, and an update that had used the null is restarted too.
pub fn taken_nulls_go()
    ensures { TakenNulls }
{}

/// A mapping that an update adds late restarts an update that had read that it was not in force.
pub fn added_mappings_conflict()
    ensures { AddedMappings }
{}

/// Updates that depend on a restarted one restart too: by values if dependences are precise, by relations if they are coarse.
pub fn cascades_take_dependents()
    ensures { Cascades }
{}

/// Updates that depend on those updates restart too.
pub fn cascades_have_levels()
    ensures { TwoLevels }
{}
