//! Facts and answers as they are written, with their relations by number and their nulls within bounds.

ghost use Rattle.std.specs.Prelude.{[], ◌∷◌, map};
ghost use Rattle.def_chase.specs.Values.{Unknown};
ghost use Rattle.base_types.specs.Meanings.{datum_of, null_of, fact_of as fact_meant, choice_of as choice_meant};
ghost use Rattle.def_language.specs.Meaning.{bounded_fact, nulls_within};
ghost use Rattle.def_language.specs.Checks.{choice_of};
ghost use Rattle.def_language.specs.Reading.{each};
ghost use Rattle.lang_forms.specs.Views.{fact_of};
ghost use Rattle.lang_forms.specs.Statements.{choice_of as choice_written};
ghost use Rattle.lang_checks.specs.Answers.{Gives};

use crate::refusals::TakeRefusal;
use base_types::{Choice, List, Null, Tuple, TupleList, Value};
use lang_forms::{RawChoice, RawFact, RawFactList};
use lang_schema::Schema;
use std::alloc::Global;

// Checks that the null comes from an update up to number `most`.
#[tactic(auto, unfolding(def_language::specs::Meaning::nulls_within))]
fn null_within(most: u32, null: Null) -> Result<(), TakeRefusal>
    ensures { Gives (λ u. u) result (nulls_within most (Unknown (null_of null) ∷ [])) }
{
    if most < null.update {
        return Err(TakeRefusal::NullNotBelow {
            update: null.update,
            place: null.place,
        });
    }
    Ok(())
}

/// Checks that the nulls among values come from updates up to number `most`. A refusal names the first from the left that does
/// not.
#[tactic(auto, unfolding(def_language::specs::Meaning::nulls_within))]
pub(crate) fn nulls_within(most: u32, values: &[Value]) -> Result<(), TakeRefusal>
    ensures { Gives (λ u. u) result (nulls_within most (map datum_of values.now)) }
{
    for value in values {
        match value {
            Value::Null(null) => {
                if most < null.update {
                    return Err(TakeRefusal::NullNotBelow {
                        update: null.update,
                        place: null.place,
                    });
                }
            }
            Value::Int(_) => {}
            Value::Word(_) => {}
        }
    }
    Ok(())
}

/// Checks that the null of a replacement, and its value if that is a null, come from updates up to number `most`.
#[tactic(auto, unfolding(def_language::specs::Meaning::nulls_within))]
pub(crate) fn replaced_within(most: u32, null: Null, value: &Value) -> Result<(), TakeRefusal>
    ensures { Gives (λ u. u) result (nulls_within most
        (Unknown (null_of null) ∷ datum_of value.now ∷ [])) }
{
    null_within(most, null)?;
    match value {
        Value::Null(other) => null_within(most, *other),
        Value::Int(_) => Ok(()),
        Value::Word(_) => Ok(()),
    }
}

/// The tuple of a fact. Its nulls must come from updates up to number `most`.
#[tactic(auto, unfolding(def_language::specs::Meaning::bounded_fact, def_language::specs::Meaning::fact_of))]
pub(crate) fn bounded_fact(
    alloc: Global,
    schema: &Schema,
    most: u32,
    fact: RawFact,
) -> Result<Tuple, TakeRefusal>
    ensures { Gives fact_meant result (bounded_fact schema.now most (fact_of fact)) }
{
    let RawFact {
        relation: name,
        values,
    } = fact;
    let relation = schema.relation_of(alloc, &name, values.len())?;
    nulls_within(most, values.as_slice())?;
    Ok(Tuple::new(alloc, relation, values)?)
}

#[tactic(auto, unfolding(def_language::specs::Reading::each))]
fn bounded_facts(
    alloc: Global,
    schema: &Schema,
    most: u32,
    facts: RawFactList,
) -> Result<TupleList, TakeRefusal>
    ensures { Gives (λ l. map fact_meant l.items) result
        (each (bounded_fact schema.now most) (map fact_of facts.items)) }
{
    let mut found = List::new(alloc);
    for fact in facts.into_vec() {
        found.push(bounded_fact(alloc, schema, most, fact)?)?;
    }
    Ok(found)
}

/// An answer to a question of update `most`. The nulls of its facts must come from updates up to that one.
#[tactic(auto, unfolding(def_language::specs::Checks::choice_of))]
pub(crate) fn choice_of(
    alloc: Global,
    schema: &Schema,
    most: u32,
    choice: RawChoice,
) -> Result<Choice, TakeRefusal>
    ensures { Gives choice_meant result (choice_of schema.now most (choice_written choice)) }
{
    match choice {
        RawChoice::Expand => Ok(Choice::Expand),
        RawChoice::Unify(fact) => {
            let tuple = bounded_fact(alloc, schema, most, fact)?;
            Ok(Choice::Unify(tuple))
        }
        RawChoice::Delete(facts) => {
            let tuples = bounded_facts(alloc, schema, most, facts)?;
            Ok(Choice::Delete(tuples))
        }
    }
}
