//! Commands as values: what a line asks for. Names of relations are looked up already; nothing is done yet.
#![tactic(auto)]

mod changes;
mod commands;
mod looks;
mod options;
mod patterns;
mod verbs;

pub use crate::changes::{Bounds, Change, Load, SaidChoice, Source};
pub use crate::commands::{Command, Said};
pub use crate::looks::{Asked, Export, Look, Paging, Shown, Why};
pub use crate::options::{Opt, OptKind};
pub use crate::patterns::{Pattern, Replacement};
pub use crate::verbs::{VERBS, Verb};
