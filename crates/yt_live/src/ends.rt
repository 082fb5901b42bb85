//! How a stream of lines ends.
ghost use Rattle.std.specs.Prelude.{◌≡◌};
ghost use Rattle.yt_live.specs.Ends.{of_line_refusal, of_read_failure, status_of};
ghost use Rattle.yt_live.specs.declared.ends.LiveEnd.TheVariants.{Memory as WantOfMemory};

use base_devices::LineRefusal;
use base_types::{Memory, Name, TupleList};
use cmd_frame::Status;
use lang_reader::{ReadFailure, SessionFault};
use lang_session::Session;

/// How a stream of lines ends.
#[derive(Drop)]
pub enum LiveEnd {
    /// At a line `quit`, or at the end of the input.
    Ended,
    /// The source failed.
    ReadFault,
    /// The sink failed.
    WriteFault,
    /// The input is longer than the limit.
    TooLong,
    /// The text up to the first line `end` is no session.
    SessionRefused(SessionFault),
    /// The base of the session violates the mapping; `image` is the image of the first violation.
    BaseViolates {
        mapping: Name,
        image: TupleList,
        session: Session,
    },
    /// Memory ran out.
    Memory,
}

impl From<Memory> for LiveEnd {
    ghost from_gives = { λ _ end. end ≡ WantOfMemory };

    fn from(_: Memory) -> LiveEnd {
        LiveEnd::Memory
    }
}

impl From<LineRefusal> for LiveEnd {
    ghost from_gives = { λ refusal end. end ≡ of_line_refusal refusal };

    fn from(refusal: LineRefusal) -> LiveEnd {
        match refusal {
            LineRefusal::ReadFault => LiveEnd::ReadFault,
            LineRefusal::TooLong => LiveEnd::TooLong,
            LineRefusal::Memory => LiveEnd::Memory,
        }
    }
}

impl From<ReadFailure> for LiveEnd {
    ghost from_gives = { λ failure end. end ≡ of_read_failure failure };

    fn from(failure: ReadFailure) -> LiveEnd {
        match failure {
            ReadFailure::Fault(fault) => LiveEnd::SessionRefused(fault),
            ReadFailure::Memory => LiveEnd::Memory,
        }
    }
}

impl LiveEnd {
    /// The status with which the program ends.
    pub(crate) fn status(&self) -> Status
        ensures { result ≡ status_of self.now }
    {
        match self {
            LiveEnd::Ended => Status::Ended,
            LiveEnd::ReadFault => Status::ReadFault,
            LiveEnd::WriteFault => Status::WriteFault,
            LiveEnd::TooLong => Status::TooLong,
            LiveEnd::SessionRefused(_) => Status::SessionRefused,
            LiveEnd::BaseViolates { .. } => Status::BaseViolates,
            LiveEnd::Memory => Status::OutOfMemory,
        }
    }
}
