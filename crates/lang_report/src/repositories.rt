//! The lines of the repository, and the last line.

ghost use Rattle.std.specs.Prelude.{◌≡◌, map, pos, length, [], ◌∷◌, IfOk, codes};
ghost use Rattle.base_types.specs.Meanings.{fact_of};
ghost use Rattle.def_language.specs.Words as word_of;
ghost use Rattle.lang_print.specs.Lines.{with_line};
ghost use Rattle.chase_update.specs.Results.{finish_of};
ghost use Rattle.lang_session.specs.Meanings.{update_of};
ghost use Rattle.lang_report.specs.Results.{repository_lines, tuple_words};
ghost use Rattle.lang_report.specs.Pages.{HasLines};

use base_types::{Memory, Tuple};
use chase_update::Finish;
use lang_schema::{Page, Schema};
use lang_session::SessionUpdate;

// A line of the repository mostly has no more bytes than this.
const LINE: usize = 24;

#[tactic(auto, using(lang_print::proofs::Onward::mapped_more))]
fn with_tuples(mut page: Page, schema: &Schema, tuples: &[Tuple]) -> Result<Page, Memory>
    ensures { IfOk result (HasLines page (map (tuple_words schema.now) (map fact_of tuples.now))) }
{
    for tuple in tuples {
        page.add_tuple(schema, tuple)?;
        page.add_line_feed()?;
    }
    Ok(page)
}

/// Adds the number of the tuples and the tuples.
pub(crate) fn with_repository(page: Page, schema: &Schema, tuples: &[Tuple]) -> Result<Page, Memory>
    ensures { IfOk result (HasLines page (repository_lines schema.now (map fact_of tuples.now))) }
{
    let count = tuples.len() as i64;
    let mut counted = page.name(b"repository")?.number(count)?.end_line()?;
    counted.reserve(tuples.len().saturating_mul(LINE))?;
    with_tuples(counted, schema, tuples)
}

/// Adds the number of updates that have ended.
pub(crate) fn with_committed(
    page: Page,
    finishes: &[Finish],
    updates: &[SessionUpdate],
) -> Result<Page, Memory>
    ensures { IfOk result (λ p. p ≡ with_line page
        (word_of.name (codes "committed") ∷ word_of.number
        (pos (length (map finish_of finishes.now)))
        ∷ word_of.name (codes "of") ∷ word_of.number (pos (length (map update_of updates.now))) ∷
        [])) }
{
    let ended = finishes.len() as i64;
    let all = updates.len() as i64;
    page.name(b"committed")?
        .number(ended)?
        .name(b"of")?
        .number(all)?
        .end_line()
}
