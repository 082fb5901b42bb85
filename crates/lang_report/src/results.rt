//! The result text, and the text of a question.

ghost use Rattle.std.specs.Prelude.{◌≡◌, IfOk};
ghost use Rattle.chase_question.specs.Inquiries.{inquiry_of};
ghost use Rattle.def_language.specs.Words as word_of;
ghost use Rattle.chase_update.specs.Results.{result_of};
ghost use Rattle.lang_session.specs.Meanings.{session_of};
ghost use Rattle.lang_report.specs.Results.{lines_text, question_lines as lines_of_question, result_text, title_words};
ghost use Rattle.lang_report.specs.Pages.{HasLine};

use crate::finishes::with_finishes;
use crate::questions::{with_question, with_stop_in};
use crate::repositories::{with_committed, with_repository};
use base_types::Memory;
use chase_question::Question;
use chase_update::SessionResult;
use lang_schema::Page;
use lang_session::Session;
use std::alloc::Global;

fn with_title(page: Page) -> Result<Page, Memory>
    ensures { IfOk result (HasLine page title_words) }
{
    page.name(b"youtopia")?
        .name(b"result")?
        .number(1)?
        .end_line()
}

/// The result text of a session and the result of its run: each update that has ended, the question at which the run stopped, if
/// it did, the repository, and the number of updates that have ended.
pub fn result_text(
    alloc: Global,
    session: &Session,
    told: &SessionResult,
) -> Result<Vec<u8>, Memory>
    ensures text { IfOk result (λ text. text.items ≡
        result_text (session_of session.now) (result_of told.now)) }
{
    let finishes = told.finishes.as_slice();
    let title = with_title(Page::new(alloc))?;
    let finished = with_finishes(title, &session.updates, finishes)?;
    let stopped = with_stop_in(finished, session, &told.stop)?;
    let tuples = told.repository.as_slice();
    let held = with_repository(stopped, &session.schema, tuples)?;
    let whole = with_committed(held, finishes, session.updates.as_slice())?;
    Ok(whole.into_text())
}

/// The lines of one question.
pub fn question_lines(
    alloc: Global,
    session: &Session,
    question: &Question,
) -> Result<Vec<u8>, Memory>
    ensures text { IfOk result (λ text.
        text.items ≡ lines_text (lines_of_question (session_of session.now)
        (inquiry_of question.now))) }
{
    let page = with_question(Page::new(alloc), session, question)?;
    Ok(page.into_text())
}
