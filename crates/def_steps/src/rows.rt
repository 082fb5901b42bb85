//! Worked rows: computed results of the serial machine, compared with results found by hand or by other means.
ghost use Rattle.def_steps.specs.Rows.{Insertions, Deletions, Budgets, Replacements};
ghost use Rattle.def_steps.specs.SessionRows.{Sessions};
ghost use Rattle.def_steps.specs.Travel.{Travels};
ghost use Rattle.def_steps.specs.Sampled.{SampledSessions};
ghost use Rattle.def_steps.specs.SampledAdded.{SampledAddedMappings};

/// Insertions: their repairs, the nulls that they draw, their questions, and the effects of answers.
pub fn insertions_run()
    ensures { Insertions }
{}

/// Deletions: their repairs, their questions, and the effects of answers.
pub fn deletions_run()
    ensures { Deletions }
{}

/// An update that runs out of its budget of steps ends, and none of its writes is left.
pub fn budgets_end()
    ensures { Budgets }
{}

/// A replacement of a null merges tuples, and is refused if the null is nowhere.
pub fn replacements_run()
    ensures { Replacements }
{}

/// Sessions of several updates, with a null that a later update names and a mapping that an update adds.
pub fn sessions_run()
    ensures { Sessions }
{}

/// A realistic session of ten updates.
pub fn travel_runs()
    ensures { Travels }
{}

/// Sessions drawn at random, with the results of an independent implementation.
pub fn sampled_sessions_run()
    ensures { SampledSessions }
{}

/// Such sessions with mappings that updates add.
pub fn sampled_added_mappings_run()
    ensures { SampledAddedMappings }
{}
