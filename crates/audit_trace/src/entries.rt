// The objects of the entries.
ghost use Rattle.std.specs.Prelude.{◌≡◌, map, IfOk};
ghost use Rattle.base_types.specs.Meanings.{change_of, choice_of};
ghost use Rattle.core_entries.specs.Meanings.{standing_of, cause_of, entry_of};
ghost use Rattle.base_json.specs.Lines.{with_json};
ghost use Rattle.audit_trace.specs.Steps.{step_of};
ghost use Rattle.audit_trace.specs.Traces.{standing_name, choice_text, admitted_json, stepped_json, delivered_json, answered_json, withdrawn_json, entry_json};

use crate::causes::with_causes;
use crate::writes::with_writes;
use base_json::Line;
use base_types::{Choice, Write};
use core_entries::{Cause, Entry, Standing};
use def_memory::Memory;
use lang_print::with_choice;
use lang_schema::{Page, Schema};
use std::alloc::Global;

fn status(standing: Standing) -> &'static [u8]
    ensures { result.now ≡ standing_name (standing_of standing) }
{
    match standing {
        Standing::Ready => b"ready",
        Standing::Held(_) => b"held",
        Standing::Pending => b"pending",
        Standing::Misfit => b"misfit",
        Standing::Done => b"done",
        Standing::Spent => b"spent",
        Standing::Refused => b"refused",
        Standing::Withdrawn => b"withdrawn",
    }
}

fn with_admission(line: Line, update: u32) -> Result<Line, Memory>
    ensures { IfOk result (λ l. l ≡ with_json line (admitted_json update)) }
{
    line.begin_object()?
        .key(b"event")?
        .string(b"admitted")?
        .key(b"update")?
        .number(u64::from(update))?
        .end_object()
}

// What a step did, but for its writes and its causes.
#[derive(Clone, Copy)]
struct Made {
    update: u32,
    attempt: u32,
    standing: Standing,
    committed: u32,
}

fn with_step(
    alloc: Global,
    line: Line,
    schema: &Schema,
    made: Made,
    writes: &[Write],
    causes: &[Cause],
) -> Result<Line, Memory>
    ensures { IfOk result (λ l.
        l ≡ with_json line (stepped_json schema.now (step_of made writes.now causes.now))) }
{
    let line = line
        .begin_object()?
        .key(b"attempt")?
        .number(u64::from(made.attempt))?
        .key(b"causes")?;
    let line = with_causes(line, causes)?
        .key(b"committed")?
        .number(u64::from(made.committed))?
        .key(b"event")?
        .string(b"stepped")?
        .key(b"status")?
        .string(status(made.standing))?
        .key(b"update")?
        .number(u64::from(made.update))?
        .key(b"writes")?;
    with_writes(alloc, line, schema, writes)?.end_object()
}

fn with_delivery(line: Line, update: u32, standing: Standing) -> Result<Line, Memory>
    ensures { IfOk result (λ l.
        l
        ≡ with_json line
        (delivered_json (record { update = update; standing = standing_of standing }))) }
{
    line.begin_object()?
        .key(b"event")?
        .string(b"delivered")?
        .key(b"status")?
        .string(status(standing))?
        .key(b"update")?
        .number(u64::from(update))?
        .end_object()
}

#[tactic(auto, using(lang_schema::proofs::Lined::page_text))]
fn answer_text(alloc: Global, schema: &Schema, choice: &Choice) -> Result<Vec<u8>, Memory>
    ensures { IfOk result (λ text. text.items ≡ choice_text schema.now (choice_of choice.now)) }
{
    Ok(with_choice(Page::new(alloc), schema, choice)?.into_text())
}

fn with_answer(
    alloc: Global,
    line: Line,
    schema: &Schema,
    update: u32,
    choice: &Choice,
    standing: Standing,
) -> Result<Line, Memory>
    ensures { IfOk result (λ l.
        l
        ≡ with_json line
        (answered_json schema.now
        (record {
          update = update;
          choice = choice_of choice.now;
          standing = standing_of standing;
        }))) }
{
    let text = answer_text(alloc, schema, choice)?;
    line.begin_object()?
        .key(b"choice")?
        .string(text.as_slice())?
        .key(b"event")?
        .string(b"answered")?
        .key(b"status")?
        .string(status(standing))?
        .key(b"update")?
        .number(u64::from(update))?
        .end_object()
}

fn with_withdrawal(
    line: Line,
    update: u32,
    causes: &[Cause],
    committed: u32,
) -> Result<Line, Memory>
    ensures { IfOk result (λ l.
        l
        ≡ with_json line
        (withdrawn_json
        (record
        { update = update; causes = map cause_of causes.now; committed = committed }))) }
{
    let line = line.begin_object()?.key(b"causes")?;
    with_causes(line, causes)?
        .key(b"committed")?
        .number(u64::from(committed))?
        .key(b"event")?
        .string(b"withdrawn")?
        .key(b"update")?
        .number(u64::from(update))?
        .end_object()
}

// The object of an entry.
pub(crate) fn with_entry(
    alloc: Global,
    line: Line,
    schema: &Schema,
    entry: &Entry,
) -> Result<Line, Memory>
    ensures { IfOk result (λ l. l ≡ with_json line (entry_json schema.now (entry_of entry.now))) }
{
    match entry {
        Entry::Admitted { update } => with_admission(line, *update),
        Entry::Stepped {
            update,
            attempt,
            standing,
            writes,
            causes,
            committed,
        } => {
            let made = Made {
                update: *update,
                attempt: *attempt,
                standing: *standing,
                committed: *committed,
            };
            with_step(
                alloc,
                line,
                schema,
                made,
                writes.as_slice(),
                causes.as_slice(),
            )
        }
        Entry::Delivered { update, standing } => with_delivery(line, *update, *standing),
        Entry::Answered {
            update,
            choice,
            standing,
        } => with_answer(alloc, line, schema, *update, choice, *standing),
        Entry::Withdrawn {
            update,
            causes,
            committed,
        } => with_withdrawal(line, *update, causes.as_slice(), *committed),
    }
}
