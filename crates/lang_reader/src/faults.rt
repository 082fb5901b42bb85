//! The faults of a session, and where they are.

ghost use Rattle.std.specs.Prelude.{◌≡◌};
ghost use Rattle.lang_reader.specs.Refusals.{of_form, of_schema, of_statement};
ghost use Rattle.lang_reader.specs.declared.faults.LineRefusal.TheVariants.{Memory as WantOfMemory};
ghost use Rattle.lang_reader.specs.declared.faults.ReadFailure.TheVariants.{Memory as NoMemory};

use base_types::{Memory, Name};
use def_language::{Wanted, Which};
use lang_checks::TakeRefusal;
use lang_forms::FormRefusal;
use lang_schema::SchemaRefusal;

/// A fault of a session. Places count bytes of the input from 0.
#[derive(Debug, Drop)]
pub enum FaultKind {
    /// No relation has this name.
    UnknownRelation(Name),
    /// The relation has `expected` columns, and is used with `found`.
    Arity {
        name: Name,
        expected: u16,
        found: u64,
    },
    /// A side of a mapping has no atom.
    EmptySide,
    /// A side of a mapping has more than 8 atoms.
    TooManyAtoms,
    /// A relation, a mapping or an update has this name already.
    DuplicateName(Name),
    /// With the mapping of this name the mappings have a plain cycle.
    PlainCycle(Name),
    /// The bytes stop being UTF-8 at the place, or the byte there cannot be part of a token.
    BadByte(usize),
    /// A text that opens at the place is not closed on its line.
    OpenText(usize),
    /// A number or a part of a null that begins at the place is out of range.
    WideNumber(usize),
    /// A text that opens at the place stands for more than 256 bytes.
    LongText(usize),
    /// The first statement is no header, or there is no statement.
    Header,
    /// This is missing at the first word that does not fit.
    Expected(Wanted),
    /// No update has this label.
    UnknownLabel(Name),
    /// A null comes from this update, which is not below the present one.
    NullNotBelow {
        update: u32,
        place: u32,
    },
    /// There is no room for one more of these.
    LimitReached(Which),
    /// The input ends without `end`.
    NoEnd,
    /// A statement follows `end`.
    AfterEnd,
}

/// The first fault of an input, and its line, counted from 1.
#[derive(Debug, Drop)]
pub struct SessionFault {
    pub line: u32,
    pub kind: FaultKind,
}

/// Why no session is read.
#[derive(Debug, Drop)]
pub enum ReadFailure {
    /// The input spells no session; this is its first fault.
    Fault(SessionFault),
    /// There was not enough memory.
    Memory,
}

/// Why a line is not read.
#[derive(Debug, Drop)]
pub(crate) enum LineRefusal {
    /// The line has this fault.
    Fault(FaultKind),
    /// There was not enough memory.
    Memory,
}

impl From<Memory> for ReadFailure {
    ghost from_gives = { λ _ failure. failure ≡ NoMemory };

    fn from(_: Memory) -> Self {
        ReadFailure::Memory
    }
}

impl From<Memory> for LineRefusal {
    ghost from_gives = { λ _ refusal. refusal ≡ WantOfMemory };

    fn from(_: Memory) -> Self {
        LineRefusal::Memory
    }
}

impl From<FormRefusal> for LineRefusal {
    ghost from_gives = { λ refused refusal. refusal ≡ of_form refused };

    fn from(refused: FormRefusal) -> Self {
        match refused {
            FormRefusal::BadHeader => LineRefusal::Fault(FaultKind::Header),
            FormRefusal::Expected(wanted) => LineRefusal::Fault(FaultKind::Expected(wanted)),
            FormRefusal::Memory => LineRefusal::Memory,
        }
    }
}

impl From<SchemaRefusal> for LineRefusal {
    ghost from_gives = { λ refused refusal. refusal ≡ of_schema refused };

    fn from(refused: SchemaRefusal) -> Self {
        match refused {
            SchemaRefusal::UnknownRelation(name) => {
                LineRefusal::Fault(FaultKind::UnknownRelation(name))
            }
            SchemaRefusal::Arity {
                name,
                expected,
                found,
            } => LineRefusal::Fault(FaultKind::Arity {
                name,
                expected,
                found,
            }),
            SchemaRefusal::EmptySide => LineRefusal::Fault(FaultKind::EmptySide),
            SchemaRefusal::TooManyAtoms => LineRefusal::Fault(FaultKind::TooManyAtoms),
            SchemaRefusal::DuplicateName(name) => {
                LineRefusal::Fault(FaultKind::DuplicateName(name))
            }
            SchemaRefusal::Limit(which) => LineRefusal::Fault(FaultKind::LimitReached(which)),
            SchemaRefusal::Memory => LineRefusal::Memory,
        }
    }
}

impl From<TakeRefusal> for LineRefusal {
    ghost from_gives = { λ refused refusal. refusal ≡ of_statement refused };

    fn from(refused: TakeRefusal) -> Self {
        match refused {
            TakeRefusal::Schema(refused) => LineRefusal::from(refused),
            TakeRefusal::PlainCycle(name) => LineRefusal::Fault(FaultKind::PlainCycle(name)),
            TakeRefusal::UnknownLabel(name) => LineRefusal::Fault(FaultKind::UnknownLabel(name)),
            TakeRefusal::NullNotBelow { update, place } => {
                LineRefusal::Fault(FaultKind::NullNotBelow { update, place })
            }
        }
    }
}
