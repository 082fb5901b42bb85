//! Laws of drilled sessions, and worked draws.
ghost use Rattle.std.specs.Prelude.{◌≡◌, ◌≤◌, ℕ, None, [], Ok};
ghost use Rattle.def_language.specs.Lines.{read};
ghost use Rattle.def_language.specs.Validity.{IsSession};
ghost use Rattle.lang_session.specs.Base.{base_violation};
ghost use Rattle.run_drill.specs.Drilled.{drilled, blank_text, with_updates};
ghost use Rattle.run_drill.specs.Rows.{FirstDraws};

use def_language::closure_decides;

/// Whatever the seed, the session of up to 1,000 updates is one that the grammar accepts, and its base, which is empty,
/// violates no mapping.
pub fn drills_are_sessions()
    ensures valid { (count seed : ℕ) → count ≤ 1000 → IsSession (drilled count seed) }
    ensures met { (count seed : ℕ) → base_violation (drilled count seed) ≡ None }
{
    closure_decides();
}

/// The relations and the mappings of a drilled session, as they are written.
pub(crate) fn blank_is_read()
    ensures blank { read blank_text ≡ Ok (with_updates []) }
{}

/// First draws, as an independent implementation makes them.
pub fn first_draws()
    ensures { FirstDraws }
{}
