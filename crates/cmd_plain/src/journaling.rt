//! The command `journal`: a session's beginning and the commits of its updates, as a journal.
ghost use Rattle.std.specs.Prelude.{◌≡◌, ◌+◌, ◌≤◌, [], length, not, false, true, IfErr, IfOk, IfSome, IfNone, None};
ghost use Rattle.std.specs.List.{AllByRecursion};
ghost use Rattle.std.specs.Option.{option_map};
ghost use Rattle.cmd_frame.specs.Outputs.{OutputView, view_of};
ghost use Rattle.def_language.specs.Sessions.{initial_mappings};
ghost use Rattle.def_language.specs.Validity.{IsSession};
ghost use Rattle.base_types.specs.Contents.{changes_of};
ghost use Rattle.base_devices.specs.InMemory.{bytes_of, state_of, unused_disk};
ghost use Rattle.run_journal.specs.Format.{IsWrite, journal_text, logged};
ghost use Rattle.run_journal.specs.Journals.{IsInHand};
ghost use Rattle.run_laws.specs.Logged.{AreLogged, commits_of, journal_of, opening_of};
ghost use Rattle.chase_update.specs.Results.{stop_of};
ghost use Rattle.lang_report.specs.Pages.{mappings_of};
ghost use Rattle.run_serial.specs.Trails.{IsTrailed, trailed_of, trails_of};
ghost use Rattle.lang_session.specs.Base.{base_violation};
ghost use Rattle.lang_session.specs.Meanings.{session_of};
ghost use Rattle.cmd_plain.specs.Commands.{unless_violated};
ghost use Rattle.cmd_plain.specs.Journaled.{HasJournal, HasOneMore, IsOneTooMany, is_too_long, journal_output, journaled};
ghost use Rattle.cmd_plain.specs.Runs.{ending_by};

use crate::base::met_base;
use crate::reading::SessionCommand;
use crate::runs::too_large_line;
use base_devices::MemDisk;
use base_limits::Budget;
use base_types::{List, MappingList, Memory};
use chase_update::Stop;
use cmd_frame::{Ending, INPUT_LIMIT, Output, Refusal};
use lang_session::Session;
use run_journal::{AppendFault, Commit, CreateFault, Journal as Place, append, create};
use run_laws::{openings_are_sessions, trails_are_logged};
use run_serial::{TrailList, Trailed, trails};
use std::alloc::Global;

/// `journal`: runs the updates whole, one after the other, and writes the session's beginning and each update's commit as a
/// journal.
#[derive(Clone, Copy, Debug)]
pub struct Journal {
    /// The number of steps that an update may make.
    pub budget: Budget,
}

// The mappings that no update adds.
fn initial_mappings(mappings: MappingList) -> MappingList
    ensures { mappings_of result ≡ initial_mappings (mappings_of mappings) }
{
    let mut kept = mappings.into_vec();
    kept.retain(|mapping| mapping.since == 0);
    List::from_vec(kept)
}

// The session's beginning: without its updates and the mappings that they add.
fn opening_of(alloc: Global, session: Session) -> Session
    ensures { session_of result ≡ opening_of (session_of session) }
{
    Session {
        format: session.format,
        schema: session.schema,
        mappings: initial_mappings(session.mappings),
        base: session.base,
        updates: List::new(alloc),
    }
}

// Appends a commit. The result is None if the journal is then too long.
fn log_commit(
    alloc: Global,
    disk: &mut MemDisk,
    place: Place,
    session: &Session,
    commit: &Commit,
) -> Result<Option<Place>, Memory>
    requires place { IsInHand (state_of disk.old) (session_of session.now) place }
    requires reliable { (state_of disk.old).reliable ≡ true }
    requires next { commit.now.number ≡ place.commits + 1 }
    requires writes { AllByRecursion (IsWrite session.now.schema)
        (logged (changes_of commit.now.writes)) }
    ensures more { IfOk result (λ found. IfSome found
        (HasOneMore disk.old disk.new (session_of session.now)
        (logged (changes_of commit.now.writes)) place)) }
    ensures none { IfOk result (λ found. IfNone found
        (IsOneTooMany disk.old (session_of session.now)
        (logged (changes_of commit.now.writes)) place)) }
{
    if disk.bytes().len() > INPUT_LIMIT {
        return Ok(None);
    }
    match append(alloc, place, disk, session, commit) {
        Ok(next) => Ok(Some(next)),
        Err(AppendFault::TooLarge(_, _)) => Ok(None),
        Err(AppendFault::DiskFault) => unreachable!(),
        Err(AppendFault::DiskMemory) => Err(Memory),
        Err(AppendFault::Memory(_)) => Err(Memory),
    }
}

// Appends a commit for each trail. The result is whether the journal is still short enough.
fn log_all(
    alloc: Global,
    disk: &mut MemDisk,
    place: Place,
    session: &Session,
    trails: TrailList,
) -> Result<bool, Memory>
    requires begun { HasJournal disk.old (session_of session.now) [] place }
    requires writes { AreLogged session.now.schema (commits_of (trails_of trails)) }
    requires few { length trails.items ≤ 1000 }
    ensures fits { IfOk result (λ fits.
        is_too_long (journal_text (session_of session.now) (commits_of (trails_of trails)))
        ≡ not fits) }
    ensures text { IfOk result (λ fits. fits ≡ true →
        bytes_of disk.new
        ≡ journal_text (session_of session.now) (commits_of (trails_of trails))) }
{
    let mut gate = place;
    let mut number = 1;
    for writes in trails.into_vec() {
        let commit = Commit { number, writes };
        let Some(next) = log_commit(alloc, disk, gate, session, &commit)? else {
            return Ok(false);
        };
        gate = next;
        number += 1;
    }
    Ok(disk.bytes().len() <= INPUT_LIMIT)
}

// Makes a journal of the session on an empty disk. The result is None if the session is too large.
fn begin(alloc: Global, disk: &mut MemDisk, session: &Session) -> Result<Option<Place>, Memory>
    requires empty { disk.old ≡ unused_disk [] [] }
    requires session { IsSession (session_of session.now) }
    requires no_updates { (session_of session.now).updates ≡ [] }
    ensures begun { IfOk result
        (λ found. IfSome found (HasJournal disk.new (session_of session.now) [])) }
    ensures none { IfOk result (λ found. IfNone found
        (is_too_long (journal_text (session_of session.now) []) ≡ true)) }
{
    match create(alloc, disk, session) {
        Ok(place) => Ok(Some(place)),
        Err(CreateFault::TooLarge(_)) => Ok(None),
        Err(CreateFault::DiskFault) => unreachable!(),
        Err(CreateFault::Memory) => Err(Memory),
    }
}

// The journal of the session with a commit for each trail; None if it is too long.
fn journal_of(
    alloc: Global,
    session: &Session,
    trails: TrailList,
) -> Result<Option<Vec<u8>>, Memory>
    requires session { IsSession (session_of session.now) }
    requires no_updates { (session_of session.now).updates ≡ [] }
    requires writes { AreLogged session.now.schema (commits_of (trails_of trails)) }
    requires few { length trails.items ≤ 1000 }
    ensures text { IfOk result (λ found. IfSome found (λ text.
        (text.items ≡ journal_text (session_of session.now) (commits_of (trails_of trails)))
        × (is_too_long text.items ≡ false))) }
    ensures none { IfOk result (λ found. IfNone found
        (is_too_long (journal_text (session_of session.now) (commits_of (trails_of trails)))
        ≡ true)) }
{
    let mut disk = MemDisk::of(alloc, Vec::new(alloc), Vec::new(alloc))?;
    let Some(place) = begin(alloc, &mut disk, session)? else {
        return Ok(None);
    };
    if log_all(alloc, &mut disk, place, session, trails)? {
        return Ok(Some(disk.bytes().to_vec(alloc)?));
    }
    Ok(None)
}

// How a command ends if its updates stopped there, or did not stop.
fn ending_by(stop: &Option<Stop>) -> Ending
    ensures { result ≡ ending_by (option_map stop_of stop.now) }
{
    match stop {
        None => Ending::Ended,
        Some(_) => Ending::Stuck,
    }
}

// The journal of what a run of the session left; None if it is too long.
fn journal_left(alloc: Global, session: Session, left: Trailed) -> Result<Option<Vec<u8>>, Memory>
    requires session { IsSession (session_of session) }
    requires writes { AreLogged session.schema (commits_of (trails_of left.trails)) }
    requires few { length left.trails.items ≤ 1000 }
    ensures text { IfOk result (λ found. IfSome found (λ text.
        (text.items ≡ journal_of (session_of session) (trails_of left.trails))
        × (is_too_long text.items ≡ false))) }
    ensures none { IfOk result (λ found. IfNone found
        (is_too_long (journal_of (session_of session) (trails_of left.trails)) ≡ true)) }
{
    openings_are_sessions();
    let opening = opening_of(alloc, session);
    journal_of(alloc, &opening, left.trails)
}

// The output for what a run of the session left.
fn journal_output(alloc: Global, session: Session, left: Trailed) -> Result<Output, Memory>
    requires session { IsSession (session_of session) }
    requires writes { AreLogged session.schema (commits_of (trails_of left.trails)) }
    requires few { length left.trails.items ≤ 1000 }
    ensures { IfOk result
        (λ output. view_of output ≡ journal_output (session_of session) (trailed_of left)) }
{
    let ending = ending_by(&left.stop);
    match journal_left(alloc, session, left)? {
        Some(text) => Ok(Output::Text(ending, text)),
        None => Ok(Output::Refused(Refusal::TooLarge, too_large_line(alloc)?)),
    }
}

// What a run of the session leaves, or the refusal if its base violates a mapping.
fn left_of(
    alloc: Global,
    session: &Session,
    budget: Budget,
) -> Result<Result<Trailed, Output>, Memory>
    requires valid { IsSession (session_of session.now) }
    ensures left { IfOk result (λ found. IfOk found (IsTrailed budget (session_of session.now))) }
    ensures met { IfOk result (λ found. IfOk found (λ _.
        base_violation (session_of session.now) ≡ None)) }
    ensures violated { IfOk result (λ found. IfErr found (λ refusal. (output : OutputView) →
        view_of refusal ≡ unless_violated (session_of session.now) output
        (base_violation (session_of session.now)))) }
{
    match met_base(alloc, session)? {
        Ok(base) => Ok(Ok(trails(alloc, session, base, budget)?)),
        Err(refusal) => Ok(Err(refusal)),
    }
}

impl SessionCommand for Journal {
    ghost makes = { λ c s output. output ≡ journaled c.budget s };

    fn make(&self, alloc: Global, session: Session) -> Result<Output, Memory> {
        trails_are_logged();
        self.budget.is_within();
        match left_of(alloc, &session, self.budget)? {
            Ok(left) => journal_output(alloc, session, left),
            Err(refusal) => Ok(refusal),
        }
    }
}
