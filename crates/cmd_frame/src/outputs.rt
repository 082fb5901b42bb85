// What a command makes of its input.
ghost use Rattle.std.specs.Prelude.{◌≤◌, length, IfOk};
ghost use Rattle.cmd_frame.specs.declared.performing.TheConstants.{INPUT_LIMIT};
ghost use Rattle.cmd_frame.specs.Outputs.{Meaning, view_of};

use def_memory::Memory;
use std::alloc::Global;

/// How a command that wrote its text ended.
#[derive(Clone, Copy, Debug, PartialEq, Eq)]
pub enum Ending {
    /// It did its work.
    Ended,
    /// The updates stopped at a question without a fitting answer.
    Stuck,
    /// What was to be checked does not hold.
    Refuted,
}

/// Why a command refuses its input.
#[derive(Clone, Copy, Debug, PartialEq, Eq)]
pub enum Refusal {
    /// The input is no session.
    SessionRefused,
    /// The base of the session violates a mapping.
    BaseViolates,
    /// The output would be longer than an input may be.
    TooLarge,
    /// The query asks for what the session does not have.
    QueryRefused,
    /// The input does not begin with a journal.
    Damaged,
}

/// What a command makes of its input, before a byte of it is written.
#[derive(Drop)]
pub enum Output {
    /// The text for `out`.
    Text(Ending, Vec<u8>),
    /// No text, and the line for `err` that says why, with its line feed.
    Refused(Refusal, Vec<u8>),
}

/// A command with its options, which makes one output of all its input.
pub trait Command {
    /// What the command may make of an input.
    ghost gives: { Self → Meaning };

    /// Makes the output for an input of at most `INPUT_LIMIT` bytes. It takes the memory for the whole output.
    fn run(&self, alloc: Global, input: &[u8]) -> Result<Output, Memory>
        requires short { length input.now ≤ INPUT_LIMIT }
        ensures { IfOk result (λ output. gives self.now input.now (view_of output)) };
}
