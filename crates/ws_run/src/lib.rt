//! Runs one update of a workspace over a set of tuples. Its ops are taken whole, one after the other. The run names what is
//! drawn, takes answers that fit by names, and keeps a note of each step.
#![tactic(auto)]

mod asking;
mod deeds;
mod drawing;
mod following;
mod going;
mod halts;
mod in_force;
mod ops;
mod resolving;
mod settings;
mod stepping;
mod threads;

pub use crate::deeds::run_deed;
pub use crate::following::follow;
pub use crate::halts::{Halt, Made, MadeList, Question, Reason};
pub use crate::in_force::InForce;
pub use crate::settings::{Setting, SourceList};
pub use crate::threads::{Op, OpList, Step, StepList, Taking, Thread};
pub use ws_ground::{
    FIX, Ground, Mark, Touch, Touched, UNKNOWN, WANT, drawing_mapping, fixing_mapping, image_for,
    news_of, shared_variables,
};
