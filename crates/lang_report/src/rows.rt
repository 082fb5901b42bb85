//! Worked rows: sessions with the results of the serial machine on them, as text.
ghost use Rattle.lang_report.specs.RowTexts.{TellsOf, SavesOf, one_repair_session, told_of_one_repair, refused_null_session, told_of_refused_null, stuck_missing_session, told_of_stuck_missing, negative_frontier_misfit_session, told_of_negative_frontier_misfit, adds_a_mapping, told_of_added_mapping, told_of_added_mapping_spent, two_cities, saved_of_fresh_null, saved_of_added_mapping, saved_of_added_mapping_spent};

/// Sessions with their result texts: updates that are done, refused and spent, and both kinds of questions.
pub fn worked_results()
    ensures one_repair { TellsOf 100 one_repair_session told_of_one_repair }
    ensures refused_null { TellsOf 100 refused_null_session told_of_refused_null }
    ensures stuck_missing { TellsOf 100 stuck_missing_session told_of_stuck_missing }
    ensures negative_frontier_misfit { TellsOf 100 negative_frontier_misfit_session
        told_of_negative_frontier_misfit }
    ensures added_mapping { TellsOf 100 adds_a_mapping told_of_added_mapping }
    ensures added_mapping_spent { TellsOf 2 adds_a_mapping told_of_added_mapping_spent }
{}

/// Sessions with their saved sessions: nulls get names of a base, and a mapping that an update put in force is in force from the
/// start.
pub fn worked_saves()
    ensures fresh_null { SavesOf 100 two_cities saved_of_fresh_null }
    ensures added_mapping { SavesOf 100 adds_a_mapping saved_of_added_mapping }
    ensures added_mapping_spent { SavesOf 2 adds_a_mapping saved_of_added_mapping_spent }
{}
