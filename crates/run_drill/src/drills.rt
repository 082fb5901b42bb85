//! The session of a count of updates and a seed.
ghost use Rattle.std.specs.Prelude.{◌≡◌, None, [], IfOk};
ghost use Rattle.def_language.specs.Validity.{IsSession};
ghost use Rattle.lang_session.specs.Base.{base_violation};
ghost use Rattle.lang_session.specs.Meanings.{session_of};
ghost use Rattle.run_drill.specs.Drilled.{drilled, with_updates};

use crate::counting::Count;
use crate::laws::{blank_is_read, drills_are_sessions};
use crate::updates::updates;
use base_types::Memory;
use lang_reader::{ReadFailure, read_session};
use lang_session::Session;
use std::alloc::Global;

// The relations and the mappings of every drilled session.
const BLANK: &[u8] =
    b"youtopia 1\nrelation City 2\nrelation Country 2\nrelation Airport 2\nrelation Tour 3\nmapping m1: City(x, c) -> Country(c, z)\nmapping m2: Airport(a, x) -> City(x, c)\nmapping m3: Tour(t, x, y) -> City(x, c), City(y, d)\nend\n";

/// The session of `count` updates with the draws of this seed: a valid one, whose base is empty and violates no mapping.
pub fn drill(alloc: Global, count: Count, seed: u64) -> Result<Session, Memory>
    ensures drilled { IfOk result (λ session. session_of session ≡ drilled count seed) }
    ensures valid { IfOk result (λ session. IsSession (session_of session)) }
    ensures met { IfOk result (λ session. base_violation (session_of session) ≡ None) }
{
    drills_are_sessions();
    let session = blank(alloc)?;
    let updates = updates(alloc, count.number(), seed)?;
    Ok(Session { updates, ..session })
}

// The session without updates.
fn blank(alloc: Global) -> Result<Session, Memory>
    ensures blank { IfOk result (λ session. session_of session ≡ with_updates []) }
{
    blank_is_read();
    match read_session(alloc, BLANK) {
        Ok(session) => Ok(session),
        Err(ReadFailure::Fault(_)) => unreachable!(),
        Err(ReadFailure::Memory) => Err(Memory),
    }
}
