//! The calls that may make an event, and why they are refused. If memory runs out, the core is unchanged, and the program ends.
use crate::calls::Event;
use base_types::{Choice, Update};
use core_engine::{
    AdmitRefusal, AnswerRefusal, Core, DeliverRefusal, StepRefusal, WithdrawRefusal,
};
use core_entries::Standing;
use std::alloc::Global;
use std::fmt;
use try_cases::CaseRefusal;

/// Why a call made no event, want of memory aside.
#[derive(Clone, Copy, Debug)]
pub enum Refusal {
    NoSuchUpdate,
    NotReady(Standing),
    NotPending(Standing),
    NotPaused(Standing),
    NoAnswer,
    Misfit,
    Committed(u32),
    Withdrawn,
    Full,
    Unfit,
}

// Makes a step. The result is None if it was made.
fn step(alloc: Global, core: &mut Core<'_>, update: u32) -> Result<Option<Refusal>, CaseRefusal> {
    match core.step(alloc, update) {
        Ok(_) => Ok(None),
        Err(StepRefusal::NoSuchUpdate) => Ok(Some(Refusal::NoSuchUpdate)),
        Err(StepRefusal::NotReady(standing)) => Ok(Some(Refusal::NotReady(standing))),
        Err(StepRefusal::Memory) => Err(CaseRefusal::Memory),
    }
}

// Delivers an answer. The result is None if it was delivered.
fn deliver(core: &mut Core<'_>, update: u32) -> Result<Option<Refusal>, CaseRefusal> {
    match core.deliver(update) {
        Ok(_) => Ok(None),
        Err(DeliverRefusal::NoSuchUpdate) => Ok(Some(Refusal::NoSuchUpdate)),
        Err(DeliverRefusal::NotPending(standing)) => Ok(Some(Refusal::NotPending(standing))),
        Err(DeliverRefusal::NoAnswer) => Ok(Some(Refusal::NoAnswer)),
        Err(DeliverRefusal::Memory) => Err(CaseRefusal::Memory),
    }
}

// Answers a question. The result is None if it was answered.
fn answer(
    alloc: Global,
    core: &mut Core<'_>,
    update: u32,
    choice: Choice,
) -> Result<Option<Refusal>, CaseRefusal> {
    match core.answer(alloc, update, choice) {
        Ok(_) => Ok(None),
        Err((refusal, _)) => not_answered(refusal),
    }
}

// Why a question was not answered.
fn not_answered(refusal: AnswerRefusal) -> Result<Option<Refusal>, CaseRefusal> {
    match refusal {
        AnswerRefusal::NoSuchUpdate => Ok(Some(Refusal::NoSuchUpdate)),
        AnswerRefusal::NotPaused(standing) => Ok(Some(Refusal::NotPaused(standing))),
        AnswerRefusal::Misfit => Ok(Some(Refusal::Misfit)),
        AnswerRefusal::Memory => Err(CaseRefusal::Memory),
    }
}

// Withdraws an update. The result is None if it was withdrawn.
fn withdraw(
    alloc: Global,
    core: &mut Core<'_>,
    update: u32,
) -> Result<Option<Refusal>, CaseRefusal> {
    match core.withdraw(alloc, update) {
        Ok(_) => Ok(None),
        Err(WithdrawRefusal::NoSuchUpdate) => Ok(Some(Refusal::NoSuchUpdate)),
        Err(WithdrawRefusal::Committed(count)) => Ok(Some(Refusal::Committed(count))),
        Err(WithdrawRefusal::Withdrawn) => Ok(Some(Refusal::Withdrawn)),
        Err(WithdrawRefusal::Memory) => Err(CaseRefusal::Memory),
    }
}

// Admits an update. The result is None if it was admitted.
fn admit(
    alloc: Global,
    core: &mut Core<'_>,
    update: Update,
) -> Result<Option<Refusal>, CaseRefusal> {
    match core.admit(alloc, update) {
        Ok(_) => Ok(None),
        Err((refusal, _)) => not_admitted(refusal),
    }
}

// Why an update was not admitted.
fn not_admitted(refusal: AdmitRefusal) -> Result<Option<Refusal>, CaseRefusal> {
    match refusal {
        AdmitRefusal::Full => Ok(Some(Refusal::Full)),
        AdmitRefusal::Unfit => Ok(Some(Refusal::Unfit)),
        AdmitRefusal::Memory => Err(CaseRefusal::Memory),
    }
}

/// Makes the event. The result is None if it was made.
pub fn make(
    alloc: Global,
    core: &mut Core<'_>,
    event: Event,
) -> Result<Option<Refusal>, CaseRefusal> {
    match event {
        Event::Step(update) => step(alloc, core, update),
        Event::Deliver(update) => deliver(core, update),
        Event::Answer(update, choice) => answer(alloc, core, update, choice),
        Event::Withdraw(update) => withdraw(alloc, core, update),
        Event::Admit(update) => admit(alloc, core, update),
    }
}

/// A standing, which is printed as text.
#[derive(Clone, Copy)]
pub struct Stands(pub Standing);

impl fmt::Display for Refusal {
    fn fmt<W: fmt::Write>(&self, f: &mut fmt::Formatter<W>) -> fmt::Result {
        match self {
            Refusal::NoSuchUpdate => f.write_str("no such update"),
            Refusal::NotReady(standing) => {
                f.write_str("not ready: ")?;
                print_standing(f, *standing)
            }
            Refusal::NotPending(standing) => {
                f.write_str("not pending: ")?;
                print_standing(f, *standing)
            }
            Refusal::NotPaused(standing) => {
                f.write_str("not paused: ")?;
                print_standing(f, *standing)
            }
            Refusal::NoAnswer => f.write_str("no answer"),
            Refusal::Misfit => f.write_str("misfit"),
            Refusal::Committed(count) => write!(f, "committed {count}"),
            Refusal::Withdrawn => f.write_str("withdrawn"),
            Refusal::Full => f.write_str("full"),
            Refusal::Unfit => f.write_str("unfit"),
        }
    }
}

impl fmt::Display for Stands {
    fn fmt<W: fmt::Write>(&self, f: &mut fmt::Formatter<W>) -> fmt::Result {
        print_standing(f, self.0)
    }
}

fn print_standing<W: fmt::Write>(f: &mut fmt::Formatter<W>, standing: Standing) -> fmt::Result {
    match standing {
        Standing::Ready => f.write_str("ready"),
        Standing::Held(lowest) => write!(f, "held {lowest}"),
        Standing::Pending => f.write_str("pending"),
        Standing::Misfit => f.write_str("misfit"),
        Standing::Done => f.write_str("done"),
        Standing::Spent => f.write_str("spent"),
        Standing::Refused => f.write_str("refused"),
        Standing::Withdrawn => f.write_str("withdrawn"),
    }
}
