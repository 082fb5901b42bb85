//! Whether reasons are the explanation of the first of their tuples.
ghost use Rattle.std.specs.Prelude.{◌≡◌, ◌↔◌, None, IfOk, IsTrue};
ghost use Rattle.base_types.specs.Meanings.{fact_of};
ghost use Rattle.def_language.specs.Validity.{IsSession};
ghost use Rattle.lang_session.specs.Base.{base_violation};
ghost use Rattle.lang_session.specs.Meanings.{session_of};
ghost use Rattle.run_explain.specs.Meanings.{IsExplained, IsTold};

use crate::explaining::explain;
use crate::{Explanation, same_reasons};
use base_limits::Budget;
use base_types::{Memory, Tuple};
use lang_session::Session;
use std::alloc::Global;

/// Whether the reasons are the explanation of the first of their tuples in the repository that the serial run of the session
/// leaves: the same reasons in the same order. An empty list is no explanation.
pub fn check_explanation(
    alloc: Global,
    session: &Session,
    budget: Budget,
    explanation: &Explanation,
) -> Result<bool, Memory>
    requires valid { IsSession (session_of session.now) }
    requires met { base_violation (session_of session.now) ≡ None }
    ensures exact { IfOk result (λ yes. IsTrue yes ↔
        IsExplained budget (session_of session.now) explanation.now) }
{
    match explanation.as_slice() {
        [] => Ok(false),
        [first, ..] => is_told(alloc, session, budget, &first.tuple, explanation),
    }
}

// Whether the reasons are the explanation of the tuple.
fn is_told(
    alloc: Global,
    session: &Session,
    budget: Budget,
    tuple: &Tuple,
    explanation: &Explanation,
) -> Result<bool, Memory>
    requires valid { IsSession (session_of session.now) }
    requires met { base_violation (session_of session.now) ≡ None }
    ensures exact { IfOk result (λ yes. IsTrue yes ↔
        IsTold budget (session_of session.now) (fact_of tuple.now) explanation.now) }
{
    match explain(alloc, session, budget, tuple)? {
        Some(told) => Ok(same_reasons(&told, explanation)),
        None => Ok(false),
    }
}
