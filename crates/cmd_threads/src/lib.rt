//! The commands `run` and `drill`: workers run a session's updates, and the result is printed.
//!
//! `specs/Runs.antt` says what `run` makes of a session: whatever the schedule of the workers, the result text of the serial
//! machine. If the trace is asked for, the text of a history that the workers may make follows.
#![tactic(auto)]

mod crews;
mod drills;
mod laws;
mod runs;

pub use crate::crews::Crew;
pub use crate::drills::Drill;
pub use crate::laws::{
    performed_runs_write_their_trace, runs_have_the_serial_status, untraced_runs_are_serial,
};
pub use crate::runs::Run;
