//! Why a tuple is in what the serial run of a session leaves: the reasons for it, back to tuples of the base and to insertions
//! of curators.
//!
//! `specs/Meanings.antt` says which reasons explain a tuple, `specs/Texts.antt` how an explanation is written.
#![tactic(auto)]

mod checking;
mod explaining;
mod notes;
mod reasons;
mod rewriting;
mod runs;
mod sameness;
mod seeking;
mod stepping;
mod telling;
mod texts;
mod wholes;

pub use crate::checking::check_explanation;
pub use crate::explaining::{Explained, explain, explain_over};
pub use crate::notes::NoteList;
pub use crate::reasons::{Explanation, How, Reason};
pub use crate::runs::{NotedRun, noted_serial};
pub use crate::sameness::same_reasons;
pub use crate::telling::told_by;
pub use crate::texts::explanation_text;
