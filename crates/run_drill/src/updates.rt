//! Drawn updates.
ghost use Rattle.std.specs.Prelude.{◌≡◌, ◌+◌, ◌≤◌, map, IfOk, OnOk};
ghost use Rattle.base_types.specs.Contents.{choices_of};
ghost use Rattle.base_types.specs.Meanings.{operation_of as operation_meant};
ghost use Rattle.lang_session.specs.Meanings.{update_of};
ghost use Rattle.run_drill.specs.Columns.{after};
ghost use Rattle.run_drill.specs.Drilled.{after_update, below_in, curator as curator_def, expansions as expansions_def, kind_of, label as label_def, operation_of, update_at, updates_from};

use crate::draw;
use crate::tuples::{pair, triple};
use base_types::{Choice, ChoiceList, List, Memory, Name, Operation, Update};
use lang_session::{SessionUpdate, SessionUpdates};
use std::alloc::Global;

const CITY: u16 = 0;

const COUNTRY: u16 = 1;

const AIRPORT: u16 = 2;

const TOUR: u16 = 3;

/// The updates of a drill, `count` of them, numbered from 1 and drawn from this seed.
pub(crate) fn updates(alloc: Global, count: u32, seed: u64) -> Result<SessionUpdates, Memory>
    requires most { count ≤ 1000 }
    ensures updates { IfOk result (λ updates.
        map update_of updates.items ≡ updates_from 1 count seed) }
{
    let mut state = seed;
    let mut updates = SessionUpdates::new(alloc);
    for before in 0..count {
        updates.push(update(alloc, &mut state, before + 1)?)?;
    }
    Ok(updates)
}

// The update of this number.
fn update(alloc: Global, state: &mut u64, number: u32) -> Result<SessionUpdate, Memory>
    requires some { 1 ≤ number }
    ensures update { IfOk result (λ update. update_of update ≡ update_at number state.old) }
    ensures state { OnOk result (state.new ≡ after_update state.old) }
{
    let kind = draw(state, 10);
    let operation = operation(alloc, state, kind)?;
    Ok(SessionUpdate {
        update: Update {
            label: label(alloc, number)?,
            curator: curator(alloc, number)?,
            operation,
        },
        answers: expansions(alloc)?,
    })
}

fn operation(alloc: Global, state: &mut u64, kind: u32) -> Result<Operation, Memory>
    ensures operation { IfOk result (λ operation. operation_meant operation ≡
        operation_of (kind_of kind) state.old) }
    ensures state { OnOk result (state.new ≡ after (below_in (kind_of kind)) state.old) }
{
    if kind < 4 {
        return Ok(Operation::Insert(pair(alloc, state, CITY, 50, 20)?));
    }
    if kind < 6 {
        return Ok(Operation::Insert(pair(alloc, state, AIRPORT, 200, 50)?));
    }
    if kind < 8 {
        return Ok(Operation::Insert(triple(alloc, state, TOUR, 100, 50, 50)?));
    }
    if kind == 8 {
        return Ok(Operation::Delete(pair(alloc, state, CITY, 50, 20)?));
    }
    Ok(Operation::Insert(pair(alloc, state, COUNTRY, 20, 20)?))
}

fn label(alloc: Global, number: u32) -> Result<Name, Memory>
    ensures label { IfOk result (λ label. label.items ≡ label_def number) }
{
    let text = format!(in alloc; "u{number}")?;
    Ok(Name::from_vec(text.into_bytes()))
}

fn curator(alloc: Global, number: u32) -> Result<Name, Memory>
    requires some { 1 ≤ number }
    ensures curator { IfOk result (λ curator. curator.items ≡ curator_def number) }
{
    let turn = (number - 1) % 12;
    let text = format!(in alloc; "c{turn}")?;
    Ok(Name::from_vec(text.into_bytes()))
}

fn expansions(alloc: Global) -> Result<ChoiceList, Memory>
    ensures answers { IfOk result (λ answers. choices_of answers ≡ expansions_def) }
{
    let mut answers = List::new(alloc);
    answers.push(Choice::Expand)?;
    answers.push(Choice::Expand)?;
    answers.push(Choice::Expand)?;
    answers.push(Choice::Expand)?;
    Ok(answers)
}
