//! Cases as text, for the programs that test a core: settings, a session, and calls.
#![tactic(auto)]

mod cases;
mod refusals;
mod texts;

pub use crate::cases::Case;
pub use crate::refusals::CaseRefusal;
pub use crate::texts::{number_of, tell, with_entries, with_line};
