//! Queries over the relations of a schema.

ghost use Rattle.std.specs.Prelude.{◌≡◌, IfOk, map, true};
ghost use Rattle.def_language.specs.Names.{place_of};
ghost use Rattle.run_ask.specs.Naive.{IsSafe};
ghost use Rattle.run_ask.specs.Asks.{query_of};
ghost use Rattle.run_ask.specs.Bound.{Gives, IsOfAtoms, bound_ask, names_of, of_query, written_of};
ghost use Rattle.run_ask.specs.Written.{is_ask};

use crate::queries::{Ask, RawAsk, VarList};
use crate::refusals::AskRefusal;
use base_types::{List, Memory, Name};
use lang_schema::{Names, Schema, SchemaRefusal, numbered_atoms};
use std::alloc::Global;

// The place of a name among the variables, or the number of variables if it is none of them.
fn place_of(variables: &Names, name: &Name) -> usize
    ensures { result ≡ place_of variables.now.items name.now.items }
{
    match variables.find(name) {
        Some(place) => place,
        None => variables.len(),
    }
}

// The place of a name as the number of a variable. Numbers fit, since at most 8 atoms have at most 64 terms.
fn number_of(variables: &Names, name: &Name) -> Result<u16, Memory>
    ensures { IfOk result (λ number. number ≡ place_of variables.now.items name.now.items) }
{
    match u16::try_from(place_of(variables, name)) {
        Ok(number) => Ok(number),
        Err(_) => Err(Memory),
    }
}

// The numbers of names among the variables.
fn places_of(alloc: Global, variables: &Names, names: &[Name]) -> Result<VarList, Memory>
    ensures { IfOk result
        (λ places. places.items ≡ map (place_of variables.now.items) (names_of names.now)) }
{
    let mut places = List::new(alloc);
    for name in names {
        places.push(number_of(variables, name)?)?;
    }
    Ok(places)
}

// A refusal of atoms as one of the query.
fn of_query(refusal: SchemaRefusal) -> AskRefusal
    requires { IsOfAtoms refusal }
    ensures { result ≡ of_query refusal }
{
    match refusal {
        SchemaRefusal::UnknownRelation(name) => AskRefusal::UnknownRelation(name),
        SchemaRefusal::Arity {
            name,
            expected,
            found,
        } => AskRefusal::Arity {
            name,
            expected,
            found,
        },
        SchemaRefusal::Memory => AskRefusal::Memory,
        _ => unreachable!(),
    }
}

/// The query over the relations of a schema, for a query that some text spells. Its variables are numbered by first occurrence
/// in the body. It is refused at the first atom from the left whose relation is unknown or has another number of columns.
pub fn bind_ask(alloc: Global, schema: &Schema, raw: &RawAsk) -> Result<Ask, AskRefusal>
    requires spelled { is_ask (written_of raw.now) ≡ true }
    ensures bound { Gives query_of result (bound_ask schema.now (written_of raw.now)) }
    ensures safe { IfOk result (λ ask. IsSafe (query_of ask)) }
{
    match numbered_atoms(alloc, schema, raw.body.as_slice()) {
        Ok((body, variables)) => {
            let head = places_of(alloc, &variables, raw.head.as_slice())?;
            Ok(Ask { head, body })
        }
        Err(refusal) => Err(of_query(refusal)),
    }
}
