//! Which event a line of a trace claims.
ghost use Rattle.std.specs.Prelude.{codes, IfOk};
ghost use Rattle.std.specs.Option.{option_map};
ghost use Rattle.serde_json.specs.View.{view};
ghost use Rattle.audit_claims.specs.Claims.{IsAnswerIn, IsClaimIn, IsClaimOn, IsNumberIn, IsPlainClaim, IsTextIn};

use crate::choices::{ChoiceText, read_choice};
use base_limits::MOST_UPDATES;
use base_types::{Choice, Memory};
use lang_schema::Schema;
use serde_json::Value;
use std::alloc::Global;

/// The event that a line claims, with the number of its update.
#[derive(Debug, Drop)]
pub enum Claim {
    Admitted(u32),
    Stepped(u32),
    Delivered(u32),
    Answered(u32, Choice),
    Withdrawn(u32),
}

// The greatest number of an update.
const MOST: u64 = MOST_UPDATES as u64;

/// Reads the event that a line claims, if it claims one: the line is a JSON object that names an event and the number of an
/// update, and for an answer also a choice.
pub fn read_claim(alloc: Global, schema: &Schema, line: &[u8]) -> Result<Option<Claim>, Memory>
    ensures claim { IfOk result (IsClaimOn schema.now line.now) }
{
    match Value::from_slice(alloc, line) {
        Ok(object) => claim_in(alloc, schema, &object),
        Err(error) => {
            if error.is_memory() {
                return Err(Memory);
            }
            Ok(None)
        }
    }
}

// The event that an object claims.
fn claim_in(alloc: Global, schema: &Schema, object: &Value) -> Result<Option<Claim>, Memory>
    ensures claim { IfOk result (IsClaimIn schema.now (view object.now)) }
{
    let Some(update) = number_in(object) else {
        return Ok(None);
    };
    let Some(event) = text_in(object, "event") else {
        return Ok(None);
    };
    if event == "answered" {
        return answer_in(alloc, schema, update, object);
    }
    Ok(plain_claim(event, update))
}

// The number of an update that an object names.
fn number_in(object: &Value) -> Option<u32>
    ensures number { IsNumberIn (view object.now) result }
{
    let Some(value) = object.get("update") else {
        return None;
    };
    let Some(number) = value.as_u64() else {
        return None;
    };
    if number == 0 || MOST < number {
        return None;
    }
    Some(number as u32)
}

// The text at a key of an object.
fn text_in<'a>(object: &'a Value, key: &str) -> Option<&'a str>
    ensures text { IsTextIn (view object.now) key.now (option_map (λ t. t.now) result) }
{
    let Some(value) = object.get(key) else {
        return None;
    };
    value.as_str()
}

// The event of this name, which needs no choice.
fn plain_claim(event: &str, update: u32) -> Option<Claim>
    ensures claim { IsPlainClaim event.now update result }
{
    if event == "admitted" {
        Some(Claim::Admitted(update))
    } else if event == "stepped" {
        Some(Claim::Stepped(update))
    } else if event == "delivered" {
        Some(Claim::Delivered(update))
    } else if event == "withdrawn" {
        Some(Claim::Withdrawn(update))
    } else {
        None
    }
}

// The answer that an object claims.
fn answer_in(
    alloc: Global,
    schema: &Schema,
    update: u32,
    object: &Value,
) -> Result<Option<Claim>, Memory>
    ensures claim { IfOk result (IsAnswerIn schema.now (view object.now) update) }
{
    let Some(text) = text_in(object, "choice") else {
        return Ok(None);
    };
    match read_choice(alloc, schema, text.as_bytes())? {
        ChoiceText::Choice(choice) => Ok(Some(Claim::Answered(update, choice))),
        ChoiceText::Unknown => Ok(None),
        ChoiceText::Malformed => Ok(None),
    }
}
