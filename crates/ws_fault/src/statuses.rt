//! The statuses of replies.

/// The outcome of a command.
#[derive(Clone, Copy, PartialEq, Eq)]
pub enum Status {
    /// The command is done.
    Done,
    /// The change is accepted, and waits for an answer.
    Waits,
    /// The words or the line cannot be read.
    Unread,
    /// The command does not fit what is there.
    Refused,
    /// There are violations.
    Violated,
    /// A file cannot be read, or is in use.
    NoInput,
    /// A file cannot be written.
    NoOutput,
    /// There is not enough memory.
    NoMemory,
    /// The workspace is damaged.
    Damaged,
    /// There was nothing to change.
    Nothing,
    /// The steps did not suffice.
    Spent,
}

impl Status {
    /// The exit status of the process.
    pub fn code(self) -> u8 {
        match self {
            Status::Done => 0,
            Status::Waits => 1,
            Status::Unread => 2,
            Status::Refused => 3,
            Status::Violated => 4,
            Status::NoInput => 5,
            Status::NoOutput => 6,
            Status::NoMemory => 7,
            Status::Damaged => 12,
            Status::Nothing => 13,
            Status::Spent => 14,
        }
    }

    /// Whether a script stops at a line with this status.
    pub fn stops(self) -> bool {
        match self {
            Status::Done | Status::Waits | Status::Violated | Status::Nothing => false,
            _ => true,
        }
    }
}
