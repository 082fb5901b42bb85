//! `why`: the explanation of a tuple, what took a tuple away, and what drew an unknown.
#![tactic(auto)]

mod gone;
mod reasons;
mod steps;
mod unknowns;
mod why;
mod why_dot;

pub use crate::unknowns::why_unknown;
pub use crate::why::why_fact;
