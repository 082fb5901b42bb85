//! Certain answers: conjunctive queries as they are written and over a schema, and the rows that come whatever the nulls of a
//! repository stand for.
//!
//! `parse_ask` reads a query, `bind_ask` puts numbers in place of its names, `certain` answers it over a set of tuples.
//! `specs/Certain.antt` says what a certain answer is, and `naive_is_certain` that naive evaluation gives exactly these.
#![tactic(auto)]

mod answers;
mod binding;
mod certainty;
mod collecting;
mod parsing;
mod printing;
pub mod queries;
pub mod refusals;

pub use crate::answers::certain;
pub use crate::binding::bind_ask;
pub use crate::certainty::{certain_is_computed, members_decide_answers, naive_is_certain};
pub use crate::parsing::parse_ask;
pub use crate::printing::answers_text;
pub use crate::queries::{Ask, RawAsk, RowList, VarList};
pub use crate::refusals::AskRefusal;
