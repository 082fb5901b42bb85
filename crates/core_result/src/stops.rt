//! Where the lowest update that is not committed stops.
ghost use Rattle.std.specs.Prelude.{◌≡◌, map, IfOk};
ghost use Rattle.std.specs.Option.{option_map};
ghost use Rattle.base_types.specs.Contents.{facts_of};
ghost use Rattle.chase_question.specs.Inquiries.{inquiry_of};
ghost use Rattle.def_chase.specs.Values.{outer};
ghost use Rattle.chase_update.specs.Results.{lack_of};
ghost use Rattle.core_queue.specs.Programs.{IsBetween};
ghost use Rattle.core_queue.specs.Queues.{AreFrom};
ghost use Rattle.core_result.specs.Outer.{outer_inquiry};
ghost use Rattle.core_result.specs.Told.{IsStop, IsStopAt};

use base_types::{Memory, TupleList};
use chase_question::Question;
use chase_update::{Attempt, Lack, Stop};
use core_queue::{QueuedUpdate, asked};
use std::alloc::Global;

/// Where the lowest update that is not committed stops, if there is one and something is lacking at its question.
pub(crate) fn stop(alloc: Global, queue: &[QueuedUpdate]) -> Result<Option<Stop>, Memory>
    requires from { AreFrom 1 queue.now }
    ensures told { IfOk result (IsStop queue.now) }
{
    for queued in queue {
        if !queued.is_over() {
            return stop_at(alloc, queued.number(), &queued.program, queued.lack());
        }
    }
    Ok(None)
}

// The stop of the update of this number at the question of its attempt, at which this is lacking.
fn stop_at(
    alloc: Global,
    update: u32,
    program: &Attempt,
    lack: Option<Lack>,
) -> Result<Option<Stop>, Memory>
    requires between { IsBetween program.now }
    ensures told { IfOk result (IsStopAt update program.now.attempt (option_map lack_of lack)) }
{
    match (asked(program), lack) {
        (Some(question), Some(lack)) => Ok(Some(Stop {
            update,
            question: outer_form(alloc, question)?,
            lack,
        })),
        (Some(_), None) => Ok(None),
        (None, _) => Ok(None),
    }
}

// The question in outer form.
fn outer_form(alloc: Global, question: &Question) -> Result<Question, Memory>
    ensures outer { IfOk result (λ form.
        inquiry_of form ≡ outer_inquiry (inquiry_of question.now)) }
{
    match question {
        Question::Positive {
            mapping,
            tuple,
            candidates,
        } => Ok(Question::Positive {
            mapping: *mapping,
            tuple: tuple.outer(alloc)?,
            candidates: outer_forms(alloc, candidates)?,
        }),
        Question::Negative { mapping, tuples } => Ok(Question::Negative {
            mapping: *mapping,
            tuples: outer_forms(alloc, tuples)?,
        }),
    }
}

// The tuples in outer form.
fn outer_forms(alloc: Global, tuples: &TupleList) -> Result<TupleList, Memory>
    ensures outer { IfOk result (λ forms. facts_of forms ≡ map outer (facts_of tuples.now)) }
{
    let mut forms = TupleList::new(alloc);
    for tuple in tuples.as_slice() {
        forms.push(tuple.outer(alloc)?)?;
    }
    Ok(forms)
}
