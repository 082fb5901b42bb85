//! Explanations of the tuples that the serial run of a session leaves.
ghost use Rattle.std.specs.Prelude.{◌≡◌, if◌then◌else◌, None, Some, [], ◌∷◌, reverse, IfOk};
ghost use Rattle.std.specs.Option.{option_map};
ghost use Rattle.base_types.specs.Contents.{facts_of};
ghost use Rattle.base_types.specs.Meanings.{fact_of};
ghost use Rattle.def_language.specs.Validity.{IsSession};
ghost use Rattle.def_chase.specs.Repository.{has};
ghost use Rattle.run_serial.specs.Meanings.{IsSerialRun};
ghost use Rattle.lang_session.specs.Base.{base_violation};
ghost use Rattle.lang_session.specs.Meanings.{session_of};
ghost use Rattle.run_explain.specs.NoteMeanings.{notes_in};
ghost use Rattle.def_provenance.specs.Notes.{told_by as told_by_def};
ghost use Rattle.run_explain.specs.ReasonMeanings.{reasons_in};
ghost use Rattle.run_explain.specs.Meanings.{Explains};

use crate::{Explanation, NoteList, NotedRun, noted_serial, told_by};
use base_limits::Budget;
use base_types::{Memory, TryCopy, Tuple};
use chase_update::SessionResult;
use def_provenance::laws::notes_tell;
use lang_session::Session;
use run_serial::base_of;
use set_facts::IndexedFacts;
use std::alloc::Global;

/// The result of a run, and the explanation of a tuple; None exactly if the tuple is not in the repository that the run leaves.
#[derive(Drop)]
pub struct Explained {
    pub result: SessionResult,
    pub explanation: Option<Explanation>,
}

/// The explanation of a tuple in the repository that the serial run of the session leaves; None exactly if it is not there. Its
/// nulls have attempt 0.
pub fn explain(
    alloc: Global,
    session: &Session,
    budget: Budget,
    tuple: &Tuple,
) -> Result<Option<Explanation>, Memory>
    requires valid { IsSession (session_of session.now) }
    requires met { base_violation (session_of session.now) ≡ None }
    ensures explained { IfOk result (Explains budget (session_of session.now) (fact_of tuple.now)) }
{
    let base = base_of(alloc, session)?;
    let explained = explain_over(alloc, session, base, budget, tuple)?;
    let Explained {
        result,
        explanation,
    } = explained;
    drop(result);
    Ok(explanation)
}

/// The run of a session over its base, which is handed over as a set of tuples, with the explanation of a tuple.
pub fn explain_over(
    alloc: Global,
    session: &Session,
    base: IndexedFacts,
    budget: Budget,
    tuple: &Tuple,
) -> Result<Explained, Memory>
    requires valid { IsSession (session_of session.now) }
    requires met { base_violation (session_of session.now) ≡ None }
    requires base { base ≡ (session_of session.now).base }
    ensures told { IfOk result (λ run. IsSerialRun budget (session_of session.now) run.result) }
    ensures explained { IfOk result (λ run.
        Explains budget (session_of session.now) (fact_of tuple.now) run.explanation) }
{
    notes_tell();
    let run = noted_serial(alloc, session, base, budget)?;
    let NotedRun { result, notes } = run;
    let explanation = told_if_left(alloc, &result, notes, tuple)?;
    Ok(Explained {
        result,
        explanation,
    })
}

// The reasons for the tuple by the notes of a run, if it is in the repository of the run's result.
fn told_if_left(
    alloc: Global,
    told: &SessionResult,
    notes: NoteList,
    tuple: &Tuple,
) -> Result<Option<Explanation>, Memory>
    ensures told { IfOk result (λ explanation. option_map reasons_in explanation ≡
        (if has (facts_of told.now.repository) (fact_of tuple.now)
        then Some (told_by_def (reverse (notes_in notes)) (fact_of tuple.now ∷ [])) else None)) }
{
    if !is_left(told, tuple) {
        return Ok(None);
    }
    let explanation = told_by(alloc, notes, tuple.copy(alloc)?)?;
    Ok(Some(explanation))
}

// Whether the tuple is in the repository of a run's result.
fn is_left(told: &SessionResult, tuple: &Tuple) -> bool
    ensures there { result ≡ has (facts_of told.now.repository) (fact_of tuple.now) }
{
    told.repository.as_slice().iter().any(|held| tuple == held)
}
