//! What the checker says of explanations.
ghost use Rattle.std.specs.Prelude.{◌≡◌, None};
ghost use Rattle.def_language.specs.Validity.{IsSession};
ghost use Rattle.lang_session.specs.Base.{base_violation};
ghost use Rattle.lang_session.specs.Meanings.{session_of};

use crate::breaking::{BREAKS, Break, broken};
use base_limits::Budget;
use base_types::{Memory, Tuple};
use lang_session::Session;
use run_explain::{Explanation, check_explanation, explain};
use run_serial::serial;
use std::alloc::Global;

const STEPS: u32 = 100;

/// The lines of all tuples that the session's serial run leaves, in order, numbered from 1.
pub(crate) fn table(alloc: Global, session: &Session) -> Result<String, Memory>
    requires valid { IsSession (session_of session.now) }
    requires met { base_violation (session_of session.now) ≡ None }
{
    let told = serial(alloc, session, Budget::new(STEPS))?;
    let mut text = String::new(alloc);
    for (before, tuple) in told.repository.as_slice().iter().enumerate() {
        tell(alloc, &mut text, session, before + 1, tuple)?;
    }
    Ok(text)
}

// Adds the lines for the explanation of a tuple, whole and then broken.
fn tell(
    alloc: Global,
    text: &mut String,
    session: &Session,
    number: usize,
    tuple: &Tuple,
) -> Result<(), Memory>
    requires valid { IsSession (session_of session.now) }
    requires met { base_violation (session_of session.now) ≡ None }
{
    let reasons = tell_whole(alloc, text, session, number, tuple)?;
    for place in 0..reasons {
        tell_broken(alloc, text, session, number, tuple, place)?;
    }
    Ok(())
}

// Adds the line for the whole explanation, and gives its number of reasons.
fn tell_whole(
    alloc: Global,
    text: &mut String,
    session: &Session,
    number: usize,
    tuple: &Tuple,
) -> Result<usize, Memory>
    requires valid { IsSession (session_of session.now) }
    requires met { base_violation (session_of session.now) ≡ None }
{
    let Some(whole) = explain(alloc, session, Budget::new(STEPS), tuple)? else {
        return Ok(0);
    };
    let taken = check_explanation(alloc, session, Budget::new(STEPS), &whole)?;
    text.push_str(&format!(in alloc; "{number} whole {}\n", said(taken))?)?;
    Ok(whole.len())
}

// Adds the lines for the explanation with the reason at the place broken, one for each way.
fn tell_broken(
    alloc: Global,
    text: &mut String,
    session: &Session,
    number: usize,
    tuple: &Tuple,
    place: usize,
) -> Result<(), Memory>
    requires valid { IsSession (session_of session.now) }
    requires met { base_violation (session_of session.now) ≡ None }
{
    for (way, name) in BREAKS {
        let taken = is_taken(alloc, session, tuple, place, way)?;
        text.push_str(&format!(in alloc; "{number} {name} {place} {}\n", said(taken))?)?;
    }
    Ok(())
}

fn said(taken: bool) -> &'static str {
    if taken { "taken" } else { "refused" }
}

// Whether the checker accepts the tuple's explanation with the reason at the place broken.
fn is_taken(
    alloc: Global,
    session: &Session,
    tuple: &Tuple,
    place: usize,
    way: Break,
) -> Result<bool, Memory>
    requires valid { IsSession (session_of session.now) }
    requires met { base_violation (session_of session.now) ≡ None }
{
    let one = explain(alloc, session, Budget::new(STEPS), tuple)?;
    let same = explain(alloc, session, Budget::new(STEPS), tuple)?;
    match (one, same) {
        (Some(one), Some(same)) => {
            let reasons: Explanation = broken(one, same, place, way)?;
            check_explanation(alloc, session, Budget::new(STEPS), &reasons)
        }
        _ => Ok(false),
    }
}
