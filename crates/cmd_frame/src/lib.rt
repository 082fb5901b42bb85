//! One command between a source and two sinks: it reads all its input, makes its output, and writes it, or says on `err` in one
//! line why not. The contract is the table of statuses, row by row.
#![tactic(auto)]

mod failures;
mod outputs;
mod performing;
mod statuses;

pub use def_memory::Memory;
pub use failures::Failure;
pub use outputs::{Command, Ending, Output, Refusal};
pub use performing::{INPUT_LIMIT, deliver, fail, perform, perform_alone};
pub use statuses::Status;
