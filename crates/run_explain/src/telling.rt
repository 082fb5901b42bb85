//! The reasons for a tuple by the notes of a run, from the last note to the first.
ghost use Rattle.std.specs.Prelude.{◌≡◌, ◌++◌, ◌∷◌, [], map, reverse, IfOk, OnOk};
ghost use Rattle.def_chase.specs.Repository.{Insert, IsRepository, apply};
ghost use Rattle.base_types.specs.Meanings.{fact_of};
ghost use Rattle.def_provenance.specs.Notes.{reason_by as reason_by_def, told_by as told_by_def};
ghost use Rattle.def_provenance.specs.Reasons.{premises, rooted};
ghost use Rattle.run_note.specs.Meanings.{note_of};
ghost use Rattle.run_explain.specs.NoteMeanings.{notes_in};
ghost use Rattle.run_explain.specs.ReasonMeanings.{HasTold, how_of, reason_of, reasons_in};

use crate::NoteList;
use crate::reasons::{Explanation, How, Reason};
use crate::rewriting::source;
use crate::seeking::{seek, take_out};
use base_types::{Memory, TryCopy, Tuple};
use run_note::{Note, Way};
use set_facts::PlainFacts;
use std::alloc::Global;

/// The reasons for a tuple by these notes.
pub fn told_by(alloc: Global, notes: NoteList, tuple: Tuple) -> Result<Explanation, Memory>
    ensures told { IfOk result (λ reasons. reasons_in reasons ≡
        told_by_def (reverse (notes_in notes)) (fact_of tuple ∷ [])) }
{
    let mut reasons = Explanation::new(alloc);
    let mut sought = PlainFacts::new(alloc);
    sought.insert(tuple)?;
    let mut left = notes;
    'notes: while let Some(note) = left.pop() {
        tell(alloc, &mut reasons, &mut sought, &note)?;
    }
    root(alloc, &mut reasons, sought)?;
    Ok(reasons)
}

// Adds the reasons for the tuples sought that the note's step put, and seeks what they rest on in their place.
fn tell(
    alloc: Global,
    reasons: &mut Explanation,
    sought: &mut PlainFacts,
    note: &Note,
) -> Result<(), Memory>
    requires sorted { IsRepository sought.old }
    ensures sorted { OnOk result (IsRepository sought.new) }
    ensures told { OnOk result
        (HasTold (note_of note.now) reasons.old sought.old reasons.new sought.new) }
{
    let puts = note.puts.copy(alloc)?;
    let taken = take_out(alloc, sought, puts)?;
    for tuple in taken.into_vec() {
        tell_one(alloc, reasons, sought, note, tuple)?;
    }
    Ok(())
}

// Adds the reason for a tuple that the note's step put, and seeks what it rests on.
fn tell_one(
    alloc: Global,
    reasons: &mut Explanation,
    sought: &mut PlainFacts,
    note: &Note,
    tuple: Tuple,
) -> Result<(), Memory>
    ensures told { OnOk result (reasons_in reasons.new ≡
        reasons_in reasons.old ++ reason_by_def (note_of note.now) (fact_of tuple) ∷ []) }
    ensures sought { OnOk result (sought.new ≡ apply sought.old
        (map Insert (premises (reason_by_def (note_of note.now) (fact_of tuple)).how))) }
{
    let reason = reason_by(alloc, note, tuple)?;
    seek(alloc, sought, &reason.how)?;
    reasons.push(reason)?;
    Ok(())
}

// The reason for a tuple that the note's step put.
fn reason_by(alloc: Global, note: &Note, tuple: Tuple) -> Result<Reason, Memory>
    ensures reason { IfOk result (λ reason. reason_of reason ≡
        reason_by_def (note_of note.now) (fact_of tuple)) }
{
    let how = how_by(alloc, note, &tuple)?;
    Ok(Reason { tuple, how })
}

// How the note's step came to the tuple.
fn how_by(alloc: Global, note: &Note, tuple: &Tuple) -> Result<How, Memory>
    ensures how { IfOk result (λ how.
        how_of how ≡ (reason_by_def (note_of note.now) (fact_of tuple.now)).how) }
{
    let update = note.update;
    let step = note.step;
    match &note.way {
        Way::Inserts => Ok(How::Inserted { update, step }),
        Way::Generates { mapping, image } => Ok(How::Generated {
            update,
            step,
            mapping: *mapping,
            image: image.copy(alloc)?,
        }),
        Way::Rewrites(rewriting) => Ok(How::Rewritten {
            update,
            step,
            from: source(alloc, rewriting, note.deleted.as_slice(), tuple)?,
        }),
    }
}

// Adds that the tuples are of the base.
fn root(alloc: Global, reasons: &mut Explanation, sought: PlainFacts) -> Result<(), Memory>
    ensures rooted { OnOk result
        (reasons_in reasons.new ≡ reasons_in reasons.old ++ map rooted sought) }
{
    for tuple in sought.into_list(alloc)?.into_vec() {
        reasons.push(Reason {
            tuple,
            how: How::Base,
        })?;
    }
    Ok(())
}
