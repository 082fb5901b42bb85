//! Laws of explanations, and worked ones.
ghost use Rattle.def_provenance.specs.ExplainedRows.{Explained};
ghost use Rattle.def_provenance.specs.Laws.{ExplanationsAreGrounded, NotesTell, StepsAgree};
ghost use Rattle.def_provenance.specs.Truths.{ReasonsAreTrue};

/// The notes of the steps that put tuples are enough to find the reasons for all tuples left.
pub fn notes_tell()
    ensures { NotesTell }
{}

/// The steps of the serial machine are the same in the scope of all violations and in the scope of those that each update caused.
pub fn steps_agree_in_scopes()
    ensures { StepsAgree }
{}

/// The tuples on which a reason rests have their reasons after it in the list. So a chain of reasons is never circular, and ends
/// at tuples of the base and at insertions.
pub fn reasons_are_grounded()
    ensures { ExplanationsAreGrounded }
{}

/// Each reason of an explanation is true. If it says that a tuple is of the base, the tuple is in the base. If it says that a
/// tuple was generated, that step put it, as a right atom of the mapping under a binding whose left side stood before the step.
/// If it says that a tuple was rewritten, the step put it, and deleted the tuple named, which its substitution takes to this one.
pub fn reasons_are_true()
    ensures { ReasonsAreTrue }
{}

/// Worked explanations of tuples that were inserted, generated, rewritten, of the base, put twice, and absent.
pub fn worked_explanations()
    ensures { Explained }
{}
