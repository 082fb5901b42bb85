//! `ask`: the certain answers to a query over what stands, and the rows that have unknowns.
#![tactic(auto)]

mod answers;
mod collecting;
mod queries;

pub use crate::answers::ask;
