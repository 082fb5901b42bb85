//! The saved session, and the reasons to refuse it.

ghost use Rattle.std.specs.Prelude.{◌≡◌, false, ◌||◌, nat_lt, [], ◌∷◌, ◌++◌, map, IfOk, IfErr, IfSome, IfNone, OnOk, OnErr};
ghost use Rattle.std.specs.Option.{option_map, option_copied};
ghost use Rattle.lang_schema.specs.Meanings.{session_mapping_of};
ghost use Rattle.lang_session.specs.Meanings.{session_of};
ghost use Rattle.chase_update.specs.Results.{finish_of, result_of};
ghost use Rattle.lang_report.specs.Saved.{from_start, is_done_in, is_too_large, saved, saved_mappings, stays_in_force};
ghost use Rattle.lang_report.specs.Refusals.{Refuses};
ghost use Rattle.lang_report.specs.declared.saving.SaveRefusal.TheVariants.{Memory as WantOfMemory};
ghost use Rattle.lang_report.specs.Pages.{mappings_of};

use crate::renaming::saved_base;
use base_limits::MOST_BYTES;
use base_types::{List, Mapping, MappingList, Memory, TryCopy};
use chase_update::{Finish, Outcome, SessionResult};
use lang_print::print_session;
use lang_session::Session;
use std::alloc::Global;

/// The most tuples that a saved session may have.
const MOST_TUPLES: u64 = 100_000;

/// The most bytes that the printed form of a saved session may have.
const MOST_PRINTED: u64 = MOST_BYTES as u64;

/// Why a session is not saved.
#[derive(Debug, Drop)]
pub enum SaveRefusal {
    /// The session has more than 100,000 tuples, or its printed form has more than 16,777,216 bytes.
    TooLarge { tuples: u64, bytes: u64 },
    /// There was not enough memory.
    Memory,
}

impl From<Memory> for SaveRefusal {
    ghost from_gives = { λ _ refusal. refusal ≡ WantOfMemory };

    fn from(_: Memory) -> Self {
        SaveRefusal::Memory
    }
}

// Whether the update has ended, and is done.
fn is_done(finish: Option<&Finish>) -> bool
    ensures { result ≡ is_done_in (option_map finish_of (option_copied finish.entry)) }
{
    match finish {
        None => false,
        Some(ended) => match ended.outcome {
            Outcome::Done => true,
            Outcome::Spent => false,
            Outcome::Refused { .. } => false,
        },
    }
}

// Whether the mapping is in force in the end.
fn stays_in_force(finishes: &[Finish], mapping: &Mapping) -> bool
    ensures { result ≡ stays_in_force (map finish_of finishes.now)
        (session_mapping_of mapping.now) }
{
    mapping.since == 0 || is_done(finishes.get((mapping.since as usize).saturating_sub(1)))
}

// A copy of the mapping, in force from the start.
fn from_start(alloc: Global, mapping: &Mapping) -> Result<Mapping, Memory>
    ensures { IfOk result (λ m. session_mapping_of m ≡
        from_start (session_mapping_of mapping.now)) }
{
    let mut kept = mapping.copy(alloc)?;
    kept.since = 0;
    Ok(kept)
}

// Adds a copy of the mapping, if it is in force in the end.
fn keep(
    alloc: Global,
    kept: &mut MappingList,
    finishes: &[Finish],
    mapping: &Mapping,
) -> Result<(), Memory>
    ensures { OnOk result (mappings_of kept.new ≡ mappings_of kept.old ++
        saved_mappings (map finish_of finishes.now) (session_mapping_of mapping.now ∷ [])) }
{
    if !stays_in_force(finishes, mapping) {
        return Ok(());
    }
    kept.push(from_start(alloc, mapping)?)?;
    Ok(())
}

fn saved_mappings(
    alloc: Global,
    finishes: &[Finish],
    mappings: &[Mapping],
) -> Result<MappingList, Memory>
    ensures { IfOk result (λ kept.
        mappings_of kept ≡ saved_mappings (map finish_of finishes.now)
        (map session_mapping_of mappings.now)) }
{
    let mut kept = List::new(alloc);
    for mapping in mappings {
        keep(alloc, &mut kept, finishes, mapping)?;
    }
    Ok(kept)
}

// Turns the session into the saved one, of any size. If it is refused, the session is unchanged.
fn begin_again(alloc: Global, session: &mut Session, told: &SessionResult) -> Result<(), Memory>
    ensures same { OnOk result (session_of session.new ≡
        saved (session_of session.old) (result_of told.now)) }
    ensures err { OnErr result (session_of session.new ≡ session_of session.old) }
{
    let finishes = told.finishes.as_slice();
    let mappings = saved_mappings(alloc, finishes, session.mappings.as_slice())?;
    session.base = saved_base(alloc, told.repository.as_slice())?;
    session.mappings = mappings;
    session.format = 2;
    session.updates = List::new(alloc);
    Ok(())
}

// Whether these are too many tuples or too many bytes.
fn is_over(tuples: u64, bytes: u64) -> bool
    ensures { result ≡ (nat_lt 100000 tuples || nat_lt 16777216 bytes) }
{
    MOST_TUPLES < tuples || MOST_PRINTED < bytes
}

// The refusal of a session that is too large; None if it is not.
fn too_large(alloc: Global, session: &Session) -> Result<Option<SaveRefusal>, Memory>
    ensures refused { IfOk result (λ found.
        IfSome found (λ refusal. Refuses refusal (session_of session.now))) }
    ensures fits { IfOk result (λ found.
        IfNone found (is_too_large (session_of session.now) ≡ false)) }
{
    let text = print_session(alloc, session)?;
    let tuples = session.base.len() as u64;
    let bytes = text.len() as u64;
    if is_over(tuples, bytes) {
        return Ok(Some(SaveRefusal::TooLarge { tuples, bytes }));
    }
    Ok(None)
}

/// The session that begins with the result of a run: of format 2, with the relations of the session that ran, the mappings in
/// force in the end, the repository as its base, and no updates. It is refused as too large exactly if it has more than 100,000
/// tuples or its printed form more than 16,777,216 bytes; the refusal has both numbers.
pub fn saved(
    alloc: Global,
    mut session: Session,
    told: &SessionResult,
) -> Result<Session, SaveRefusal>
    ensures same { IfOk result (λ s. session_of s ≡
        saved (session_of session) (result_of told.now)) }
    ensures fits { IfOk result (λ s. is_too_large (session_of s) ≡ false) }
    ensures refused { IfErr result (λ refusal.
        Refuses refusal (saved (session_of session) (result_of told.now))) }
{
    begin_again(alloc, &mut session, told)?;
    match too_large(alloc, &session)? {
        Some(refusal) => Err(refusal),
        None => Ok(session),
    }
}
