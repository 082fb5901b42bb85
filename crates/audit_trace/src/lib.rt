//! The text of a trace: the entries of a history, line by line, as JSON.
//!
//! Each line is the compact JSON text of an object, with its keys in byte order; `specs/Traces.antt` defines the objects. The
//! text is written token by token on one `Line` of `base_json`.
#![tactic(auto)]

mod causes;
mod entries;
mod laws;
mod traces;
mod writes;

pub use crate::laws::worked_traces;
pub use crate::traces::{entry_line, trace_text};
