// The statuses with which the program ends.
ghost use Rattle.std.specs.Prelude.{◌≡◌};
ghost use Rattle.cmd_frame.specs.Statuses.{number_of, status_of_ending, status_of_failure, status_of_refusal};

use crate::{Ending, Failure, Refusal};

/// How the program ended.
#[derive(Clone, Copy, Debug, PartialEq, Eq)]
pub enum Status {
    /// The command did its work.
    Ended,
    /// The updates stopped at a question without a fitting answer.
    Stuck,
    /// The words are refused.
    Usage,
    /// The input is no session.
    SessionRefused,
    /// The base of the session violates a mapping.
    BaseViolates,
    /// The source failed.
    ReadFault,
    /// `out` failed.
    WriteFault,
    /// Memory ran out.
    OutOfMemory,
    /// The input is longer than the limit.
    TooLong,
    /// The output would be longer than an input may be.
    TooLarge,
    /// What was to be checked does not hold.
    Refuted,
    /// The query asks for what the session does not have.
    QueryRefused,
    /// The input does not begin with a journal.
    Damaged,
}

impl Status {
    /// The number with which the program exits.
    pub fn number(self) -> u8
        ensures { result ≡ number_of self }
    {
        match self {
            Status::Ended => 0,
            Status::Stuck => 1,
            Status::Usage => 2,
            Status::SessionRefused => 3,
            Status::BaseViolates => 4,
            Status::ReadFault => 5,
            Status::WriteFault => 6,
            Status::OutOfMemory => 7,
            Status::TooLong => 8,
            Status::TooLarge => 9,
            Status::Refuted => 10,
            Status::QueryRefused => 11,
            Status::Damaged => 12,
        }
    }
}

impl From<Ending> for Status {
    ghost from_gives = { λ ending status. status ≡ status_of_ending ending };

    fn from(ending: Ending) -> Status {
        match ending {
            Ending::Ended => Status::Ended,
            Ending::Stuck => Status::Stuck,
            Ending::Refuted => Status::Refuted,
        }
    }
}

impl From<Refusal> for Status {
    ghost from_gives = { λ refusal status. status ≡ status_of_refusal refusal };

    fn from(refusal: Refusal) -> Status {
        match refusal {
            Refusal::SessionRefused => Status::SessionRefused,
            Refusal::BaseViolates => Status::BaseViolates,
            Refusal::TooLarge => Status::TooLarge,
            Refusal::QueryRefused => Status::QueryRefused,
            Refusal::Damaged => Status::Damaged,
        }
    }
}

impl From<Failure> for Status {
    ghost from_gives = { λ failure status. status ≡ status_of_failure failure };

    fn from(failure: Failure) -> Status {
        match failure {
            Failure::Usage => Status::Usage,
            Failure::ReadFault => Status::ReadFault,
            Failure::WriteFault => Status::WriteFault,
            Failure::OutOfMemory => Status::OutOfMemory,
            Failure::TooLong => Status::TooLong,
        }
    }
}
