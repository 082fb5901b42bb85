// Makes a journal, and appends a commit.
ghost use Rattle.std.specs.Prelude.{◌≡◌, ◌+◌, ◌<◌, ◌^◌, ◌++◌, ◌∷◌, [], List, length, IfOk, OnOk};
ghost use Rattle.std.specs.List.{AllByRecursion};
ghost use Rattle.def_chase.specs.Repository.{Change};
ghost use Rattle.def_language.specs.Printing.{printed};
ghost use Rattle.def_language.specs.Validity.{IsSession};
ghost use Rattle.base_devices.specs.States.{IsSettled};
ghost use Rattle.lang_session.specs.Meanings.{session_of};
ghost use Rattle.run_journal.specs.Format.{IsWrite, commit_text, journal_text};
ghost use Rattle.run_journal.specs.Journals.{IsAt, IsInHand, IsJournal};
ghost use Rattle.base_roll.specs.Histories.{IsAppending};
ghost use Rattle.run_journal.specs.Answers.{AppendTold, CreateTold, answer_of, writes_of};

use crate::printing::commit_text;
use crate::{AppendFault, Commit, CreateFault, Journal};
use base_devices::{Disk, DiskRefusal};
use base_limits::MOST_BYTES;
use base_roll::{Roll, with_gate};
use lang_print::print_session;
use lang_session::Session;
use std::alloc::Global;

/// The most bytes that a payload may have: the printed form of a session, or the text of a commit.
pub const PAYLOAD_LIMIT: usize = MOST_BYTES;

// A number of this type fits 4 bytes.
fn numbers_fit(number: u32)
    ensures { number < 2 ^ 32 }
{}

/// Makes a journal of the session, without a commit, on an empty disk. At `Ok` the journal is on the disk.
pub fn create<D: Disk>(
    alloc: Global,
    disk: &mut D,
    session: &Session,
) -> Result<Journal, CreateFault>
    requires empty { (D.state disk.old).bytes ≡ [] }
    requires settled { IsSettled (D.state disk.old) }
    requires session { IsSession (session_of session.now) }
    requires no_updates { (session_of session.now).updates ≡ [] }
    ensures made { IfOk result (λ journal.
        IsAt (D.state disk.new) (session_of session.now) [] journal) }
    ensures bytes { OnOk result
        ((D.state disk.new).bytes ≡ journal_text (session_of session.now) []) }
    ensures told { CreateTold (length (printed (session_of session.now))) disk.old disk.new
        (D.state disk.old) (D.state disk.new) result }
    ensures reliable { (D.state disk.new).reliable ≡ (D.state disk.old).reliable }
{
    let payload = print_session(alloc, session)?;
    if payload.len() > PAYLOAD_LIMIT {
        return Err(CreateFault::TooLarge(payload.len() as u64));
    }
    let record = with_gate(alloc, &payload)?;
    match base_roll::create(disk, &record) {
        Ok(()) => Ok(Journal {
            gate: payload.len() + 4,
            commits: 0,
        }),
        Err(DiskRefusal::Failed) => Err(CreateFault::DiskFault),
        Err(DiskRefusal::Memory) => Err(CreateFault::Memory),
    }
}

// The answer to the append of the commit of this number to the journal, by the answer of the roll.
fn answer(
    journal: Journal,
    number: u32,
    logged: Result<Roll, base_roll::AppendFault>,
) -> Result<Journal, AppendFault>
    ensures { result ≡ answer_of journal number logged }
{
    match logged {
        Ok(roll) => Ok(Journal {
            gate: roll.gate(),
            commits: number,
        }),
        Err(base_roll::AppendFault::TooLarge(_, size)) => {
            Err(AppendFault::TooLarge(journal, size))
        }
        Err(base_roll::AppendFault::DiskFault) => Err(AppendFault::DiskFault),
        Err(base_roll::AppendFault::DiskMemory) => Err(AppendFault::DiskMemory),
        Err(base_roll::AppendFault::Memory(_)) => Err(AppendFault::Memory(journal)),
    }
}

/// Appends a commit. At `Ok` it is acknowledged: from then on each crash leaves a journal that has it. A crash at any moment
/// before that leaves the journal without it, or with it.
///
/// The session must be the one that the journal begins with, and the commit must have the number that comes next. Its writes
/// are logged in their outer forms, without the writes that say which mapping is in force; each is of a tuple of the session's
/// relations.
pub fn append<D: Disk>(
    alloc: Global,
    journal: Journal,
    disk: &mut D,
    session: &Session,
    commit: &Commit,
) -> Result<Journal, AppendFault>
    requires journal { IsInHand (D.state disk.old) (session_of session.now) journal }
    requires next { commit.now.number ≡ journal.commits + 1 }
    requires writes { AllByRecursion (IsWrite session.now.schema) (writes_of commit.now) }
    requires small { length (D.state disk.old).bytes < 2 ^ 63 }
    ensures images { (commits : List (List Change))
        → IsAt (D.state disk.old) (session_of session.now) commits journal
        → IsAppending (IsJournal (session_of session.now)) commits (writes_of commit.now)
        (D.state disk.old) (D.state disk.new) }
    ensures acknowledged { (commits : List (List Change))
        → IsAt (D.state disk.old) (session_of session.now) commits journal
        → IfOk result (λ next.
        IsAt (D.state disk.new) (session_of session.now) (commits ++ writes_of commit.now ∷ [])
        next) }
    ensures bytes { (commits : List (List Change))
        → IsAt (D.state disk.old) (session_of session.now) commits journal
        → (D.state disk.old).bytes ≡ journal_text (session_of session.now) commits
        → OnOk result
        ((D.state disk.new).bytes
        ≡ journal_text (session_of session.now) (commits ++ writes_of commit.now ∷ [])) }
    ensures told { AppendTold journal
        (length (commit_text session.now.schema commit.now.number (writes_of commit.now))) disk.old
        disk.new (D.state disk.old) (D.state disk.new) result }
    ensures reliable { (D.state disk.new).reliable ≡ (D.state disk.old).reliable }
{
    numbers_fit(commit.number);
    let payload = match commit_text(alloc, &session.schema, commit) {
        Ok(payload) => payload,
        Err(_) => return Err(AppendFault::Memory(journal)),
    };
    if payload.len() > PAYLOAD_LIMIT {
        return Err(AppendFault::TooLarge(journal, payload.len() as u64));
    }
    let logged = base_roll::append(alloc, journal.roll(), disk, &payload);
    answer(journal, commit.number, logged)
}
