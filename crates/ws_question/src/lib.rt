//! The question of an update by names: its lines, its object, the commands that answer it, and which questions were shown.
#![tactic(auto)]

mod asked;
mod candidates;
mod lines;
mod near;
mod next;
mod objects;
mod ranking;
mod reasons;
mod seen;
mod standing;
mod texts;

pub use crate::asked::{AskedNow, asked_now};
pub use crate::lines::{question_line, question_lines};
pub use crate::near::near_texts;
pub use crate::next::question_next;
pub use crate::objects::{question_object, write_items};
pub use crate::reasons::{lost_words, reason_words};
pub use crate::seen::Shown;
pub use crate::standing::{status_of, status_word};
pub use crate::texts::{count_text, fact_text, inner_text, unknown_text, write_text};
