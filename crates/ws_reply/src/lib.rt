//! Replies to commands, as lines of text or as objects of JSON, and the parts that many replies share.
#![tactic(auto)]

mod contexts;
mod outcomes;
mod parts;
mod replies;

pub use crate::contexts::{Context, Form};
pub use crate::outcomes::Outcome;
pub use crate::parts::{
    column_items, lines_text, number_items, number_of, object_of, refused, row_items, seen_object,
    seen_objects, seen_text, text_items,
};
pub use crate::replies::{Kind, Reply};
