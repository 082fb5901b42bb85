//! Whether the base of a session meets the mappings that are in force from the start.
ghost use Rattle.std.specs.Prelude.{◌≡◌, ◌++◌, ◌∷◌, [], None, flat_map, false, map, IfErr, IfOk, OnOk};
ghost use Rattle.base_types.specs.Meanings.{fact_of};
ghost use Rattle.cmd_frame.specs.Outputs.{OutputView, Refused, view_of};
ghost use Rattle.def_language.specs.Validity.{IsSession};
ghost use Rattle.lang_session.specs.Meanings.{session_of};
ghost use Rattle.def_language.specs.Printing.{joined_text, tuple_text};
ghost use Rattle.lang_session.specs.Base.{base_violation};
ghost use Rattle.cmd_plain.specs.Base.{base_line};
ghost use Rattle.cmd_plain.specs.Commands.{unless_violated};
ghost use Rattle.run_base.specs.Meanings.{violated_of};

use base_types::{Memory, Tuple};
use cmd_frame::{Output, Refusal};
use lang_schema::{Schema, print_tuple};
use lang_session::Session;
use run_base::{Violated, base_violation};
use run_serial::base_of;
use set_facts::IndexedFacts;
use std::alloc::Global;

// Adds tuples, each after a comma and a space.
fn push_others(
    alloc: Global,
    line: &mut Vec<u8>,
    schema: &Schema,
    tuples: &[Tuple],
) -> Result<(), Memory>
    ensures { OnOk result (line.new.items ≡
        line.old.items ++ flat_map (λ t. 44 ∷ 32 ∷ tuple_text schema.now false t)
        (map fact_of tuples.now)) }
{
    for tuple in tuples {
        line.extend_from_slice(b", ")?;
        line.extend_from_slice(&print_tuple(alloc, schema, tuple, false)?)?;
    }
    Ok(())
}

// Adds tuples, with a comma and a space between them.
fn push_tuples(
    alloc: Global,
    line: &mut Vec<u8>,
    schema: &Schema,
    tuples: &[Tuple],
) -> Result<(), Memory>
    ensures { OnOk result (line.new.items ≡
        line.old.items ++ joined_text (tuple_text schema.now false) (map fact_of tuples.now)) }
{
    match tuples {
        [] => Ok(()),
        [first, others @ ..] => {
            line.extend_from_slice(&print_tuple(alloc, schema, first, false)?)?;
            push_others(alloc, line, schema, others)
        }
    }
}

// The line for a violation of the base.
fn base_line(alloc: Global, schema: &Schema, violated: &Violated<'_>) -> Result<Vec<u8>, Memory>
    ensures { IfOk result (λ line. line.items ≡ base_line schema.now (violated_of violated.now)) }
{
    let mut line = Vec::new(alloc);
    line.extend_from_slice(b"youtopia: base violates ")?;
    line.extend_from_slice(violated.mapping.name.as_slice())?;
    line.extend_from_slice(b": ")?;
    push_tuples(alloc, &mut line, schema, violated.image.as_slice())?;
    line.push(b'\n')?;
    Ok(line)
}

/// The refusal for a violation of the base.
pub fn base_refusal(
    alloc: Global,
    schema: &Schema,
    violated: &Violated<'_>,
) -> Result<Output, Memory>
    ensures { IfOk result (λ output. view_of output ≡
        Refused Refusal.BaseViolates (base_line schema.now (violated_of violated.now))) }
{
    Ok(Output::Refused(Refusal::BaseViolates, base_line(alloc, schema, violated)?))
}

/// The base of the session as a set of tuples, if it meets the mappings that are in force from the start; otherwise the refusal
/// with its first violation.
pub(crate) fn met_base(
    alloc: Global,
    session: &Session,
) -> Result<Result<IndexedFacts, Output>, Memory>
    requires valid { IsSession (session_of session.now) }
    ensures base { IfOk result (λ found. IfOk found (λ base.
        base ≡ (session_of session.now).base)) }
    ensures met { IfOk result (λ found. IfOk found (λ _.
        base_violation (session_of session.now) ≡ None)) }
    ensures violated { IfOk result (λ found. IfErr found (λ refusal. (output : OutputView) →
        view_of refusal ≡ unless_violated (session_of session.now) output
        (base_violation (session_of session.now)))) }
{
    let base = base_of(alloc, session)?;
    match base_violation(alloc, session, &base)? {
        Some(violated) => Ok(Err(base_refusal(alloc, &session.schema, &violated)?)),
        None => Ok(Ok(base)),
    }
}
