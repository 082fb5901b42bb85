//! What a trace claims, line by line, before anything is judged: its form, the event of each line, and where the trace stands in
//! an auditor's input.
#![tactic(auto)]

mod choices;
mod claims;
mod forms;
mod laws;
mod parts;
mod verdicts;

pub use crate::choices::{ChoiceText, read_choice};
pub use crate::claims::{Claim, read_claim};
pub use crate::forms::{counted_lines, first_line};
pub use crate::laws::{choices_are_read_again, lines_claim_one_event, printed_entries_are_claimed};
pub use crate::parts::{result_part, session_part};
pub use crate::verdicts::{histories_have_their_verdict, verdicts_are_one};
