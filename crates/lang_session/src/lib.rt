//! A session as the program holds it: relations, mappings, base tuples, updates with their answers.
//!
//! `specs/Meanings.antt` gives its meaning in the terms of `def_language`: `session_of` is the session as pure data. `IsSession`
//! says of this meaning that some bytes spell it. `specs/Base.antt` says when the base of a session violates a mapping.
#![tactic(auto)]

mod admission;
mod laws;
mod operations;
mod sessions;
mod values;

pub use crate::admission::admissions_are_decided;
pub use crate::laws::{base_holds, sessions_suit_the_chase};
pub use crate::operations::admits;
pub use crate::sessions::{Session, SessionUpdate, SessionUpdates};
pub use crate::values::is_text;
