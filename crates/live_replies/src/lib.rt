//! The replies to curators who work on one session: each line is a command that makes at most one event of the core, and has one
//! reply.
//!
//! `specs/Turns.antt` defines what a line does and the reply to it, by the definitions of legal histories and of texts.
#![tactic(auto)]

mod answers;
mod commands;
mod conversations;
mod forms;
mod operations;
mod refusals;
mod updates;

pub use crate::commands::Command;
pub use crate::conversations::{Conversation, Reply};
