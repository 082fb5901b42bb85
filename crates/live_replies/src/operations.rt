//! Operations and choices over the relations of the session.
ghost use Rattle.std.specs.Prelude.{◌≡◌, map, IfOk};
ghost use Rattle.std.specs.Option.{option_map};
ghost use Rattle.base_types.specs.Meanings.{choice_of, fact_of, operation_of};
ghost use Rattle.lang_forms.specs.Statements.{choice_of as choice_meant, operation_of as operation_meant};
ghost use Rattle.lang_forms.specs.Views.{fact_of as fact_meant};
ghost use Rattle.live_replies.specs.Known.{known_choice, known_facts, known_operation};

use base_types::{Choice, Memory, Operation, TupleList};
use lang_forms::{RawChoice, RawFact, RawOperation};
use lang_reader::tuple_in;
use lang_schema::Schema;
use std::alloc::Global;

/// The operation; None if a fact's relation is unknown or has another number of columns.
pub(crate) fn known_operation(
    alloc: Global,
    schema: &Schema,
    written: RawOperation,
) -> Result<Option<Operation>, Memory>
    ensures { IfOk result (λ known. option_map operation_of known ≡
        known_operation schema.now (operation_meant written)) }
{
    match written {
        RawOperation::Insert(fact) => match tuple_in(alloc, schema, &fact)? {
            Some(tuple) => Ok(Some(Operation::Insert(tuple))),
            None => Ok(None),
        },
        RawOperation::Delete(fact) => match tuple_in(alloc, schema, &fact)? {
            Some(tuple) => Ok(Some(Operation::Delete(tuple))),
            None => Ok(None),
        },
        RawOperation::Replace(null, value) => Ok(Some(Operation::Replace(null, value))),
        RawOperation::Enact(_) => Ok(None),
    }
}

// The tuples of facts; None if a fact's relation is unknown or has another number of columns.
fn known_facts(
    alloc: Global,
    schema: &Schema,
    facts: &[RawFact],
) -> Result<Option<TupleList>, Memory>
    ensures { IfOk result (λ known. option_map (λ l. map fact_of l.items) known ≡
        known_facts schema.now (map fact_meant facts.now)) }
{
    let mut tuples = TupleList::new(alloc);
    for fact in facts {
        let Some(tuple) = tuple_in(alloc, schema, fact)? else {
            return Ok(None);
        };
        tuples.push(tuple)?;
    }
    Ok(Some(tuples))
}

/// The choice; None if a fact's relation is unknown or has another number of columns.
pub(crate) fn known_choice(
    alloc: Global,
    schema: &Schema,
    written: RawChoice,
) -> Result<Option<Choice>, Memory>
    ensures { IfOk result (λ known. option_map choice_of known ≡
        known_choice schema.now (choice_meant written)) }
{
    match written {
        RawChoice::Expand => Ok(Some(Choice::Expand)),
        RawChoice::Unify(fact) => match tuple_in(alloc, schema, &fact)? {
            Some(tuple) => Ok(Some(Choice::Unify(tuple))),
            None => Ok(None),
        },
        RawChoice::Delete(facts) => match known_facts(alloc, schema, facts.as_slice())? {
            Some(tuples) => Ok(Some(Choice::Delete(tuples))),
            None => Ok(None),
        },
    }
}
