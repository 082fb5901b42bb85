//! Tuples of numbers that are drawn from a seed.
ghost use Rattle.std.specs.Prelude.{◌≡◌, ◌<◌, ◌∷◌, [], IfOk, OnOk};
ghost use Rattle.base_types.specs.Meanings.{fact_of};
ghost use Rattle.run_drill.specs.Draws.{next as next_def};
ghost use Rattle.run_drill.specs.Columns.{after, columns};
ghost use Rattle.run_drill.specs.Drilled.{fact};
ghost use Rattle.run_drill.specs.Meanings.{HasDrawn};

use crate::draw;
use base_types::{List, Memory, Tuple, Value, ValueList};
use std::alloc::Global;

// Draws one more value.
fn push(state: &mut u64, values: &mut ValueList, most: u32) -> Result<(), Memory>
    requires some { 0 < most }
    ensures pushed { OnOk result (HasDrawn most state.old values.old values.new) }
    ensures state { OnOk result (state.new ≡ next_def state.old) }
{
    let number = draw(state, most);
    values.push(Value::Int(i64::from(number)))?;
    Ok(())
}

/// A tuple of two numbers below these limits, drawn from the left.
pub(crate) fn pair(
    alloc: Global,
    state: &mut u64,
    relation: u16,
    first: u32,
    second: u32,
) -> Result<Tuple, Memory>
    requires first { 0 < first }
    requires second { 0 < second }
    ensures tuple { IfOk result (λ tuple. fact_of tuple ≡
        fact relation (columns (first ∷ second ∷ []) state.old)) }
    ensures state { OnOk result (state.new ≡ after (first ∷ second ∷ []) state.old) }
{
    let mut values = List::new(alloc);
    push(state, &mut values, first)?;
    push(state, &mut values, second)?;
    Tuple::new(alloc, relation, values)
}

/// A tuple of three numbers below these limits, drawn from the left.
pub(crate) fn triple(
    alloc: Global,
    state: &mut u64,
    relation: u16,
    first: u32,
    second: u32,
    third: u32,
) -> Result<Tuple, Memory>
    requires first { 0 < first }
    requires second { 0 < second }
    requires third { 0 < third }
    ensures tuple { IfOk result (λ tuple. fact_of tuple ≡
        fact relation (columns (first ∷ second ∷ third ∷ []) state.old)) }
    ensures state { OnOk result (state.new ≡ after (first ∷ second ∷ third ∷ []) state.old) }
{
    let mut values = List::new(alloc);
    push(state, &mut values, first)?;
    push(state, &mut values, second)?;
    push(state, &mut values, third)?;
    Tuple::new(alloc, relation, values)
}
