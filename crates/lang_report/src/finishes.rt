//! The lines of updates that have ended.

ghost use Rattle.std.specs.Prelude.{◌≡◌, ◌+◌, ◌<◌, ◌^◌, Some, length, map, slice_get, IfOk, OnOk};
ghost use Rattle.chase_update.specs.Results.{finish_of};
ghost use Rattle.chase_update.specs.declared.results.Finish.{Finish};
ghost use Rattle.lang_report.specs.Results.{end_words, finish_lines, finish_words};
ghost use Rattle.lang_report.specs.Pages.{HasLine, HasLines, HasWords, updates_of};

use crate::named::add_update;
use base_types::{Memory, Null, Value};
use chase_update::{Finish, Outcome};
use lang_schema::Page;
use lang_session::SessionUpdates;

// Adds how the update ended.
fn add_end(page: &mut Page, finish: &Finish) -> Result<(), Memory>
    ensures { OnOk result (HasWords page.old
        (end_words (finish_of finish.now).outcome) page.new) }
{
    match finish.outcome {
        Outcome::Done => page.add_name(b"done"),
        Outcome::Spent => page.add_name(b"spent"),
        Outcome::Refused { update, place } => {
            let null = Null {
                update,
                attempt: 0,
                place,
            };
            page.add_name(b"refused")?;
            page.add_value(&Value::Null(null))
        }
    }
}

// Adds the line of the update of this number.
fn add_finish(
    page: &mut Page,
    updates: &SessionUpdates,
    number: usize,
    finish: &Finish,
) -> Result<(), Memory>
    requires { number < 2 ^ 63 }
    ensures { OnOk result (HasLine page.old
        (finish_words (updates_of updates.now) number (finish_of finish.now)) page.new) }
{
    page.add_name(b"update")?;
    add_update(page, updates, number)?;
    add_end(page, finish)?;
    page.add_name(b"steps")?;
    page.add_number(finish.steps as i64)?;
    page.add_name(b"nulls")?;
    page.add_number(finish.nulls as i64)?;
    page.add_line_feed()
}

// Adds the line of the update that ended at this place of the list, counted from 0.
fn add_finish_at(
    page: &mut Page,
    updates: &SessionUpdates,
    finishes: &[Finish],
    place: usize,
) -> Result<(), Memory>
    requires { place < length finishes.now }
    ensures { (f : Finish) → slice_get finishes.now place ≡ Some f →
        OnOk result (HasLine page.old (finish_words (updates_of updates.now) (place + 1)
        (finish_of f)) page.new) }
{
    let Some(finish) = finishes.get(place) else {
        unreachable!()
    };
    add_finish(page, updates, place + 1, finish)
}

/// Adds the lines of the updates that have ended; the first has number 1.
pub(crate) fn with_finishes(
    mut page: Page,
    updates: &SessionUpdates,
    finishes: &[Finish],
) -> Result<Page, Memory>
    ensures { IfOk result (HasLines page
        (finish_lines (updates_of updates.now) 1 (map finish_of finishes.now))) }
{
    for place in 0..finishes.len() {
        add_finish_at(&mut page, updates, finishes, place)?;
    }
    Ok(page)
}
