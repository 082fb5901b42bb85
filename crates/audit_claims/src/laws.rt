//! Laws on the lines of a trace.
ghost use Rattle.std.specs.Prelude.{◌≡◌, ◌-◌, ◌^◌, ℕ, List};
ghost use Rattle.audit_claims.specs.Claims.{Tells};
ghost use Rattle.audit_claims.specs.Told.{Told};
ghost use Rattle.def_language.specs.Sessions.{RelationSchema, SessionData};
ghost use Rattle.def_language.specs.Validity.{IsChoice, IsSession};
ghost use Rattle.def_history.specs.PlainEntries.{PlainEntry};
ghost use Rattle.def_chase.specs.Updates.{Choice};
ghost use Rattle.audit_claims.specs.Claimed.{IsPrintable, IsReadAgain, entry_text, told_by};

use def_language::{
    statements_are_read_again, statements_are_written_directly, tuples_are_read_again,
    words_are_read_again,
};

/// The printed line of an entry claims its event: the kind, the update, and the choice of an answer.
pub fn printed_entries_are_claimed()
    ensures { (relations : List RelationSchema) (e : PlainEntry) → IsPrintable relations e →
        Tells relations (entry_text relations e) (told_by e) }
{}

/// A choice over the relations of a session, once printed, is read again as itself, whatever updates its nulls are of.
pub fn choices_are_read_again()
    ensures { (s : SessionData) (c : Choice) → IsSession s → IsChoice s.relations (2 ^ 32 - 1) c →
        IsReadAgain s.relations c }
{
    words_are_read_again();
    statements_are_read_again();
    statements_are_written_directly();
    tuples_are_read_again();
}

/// A line claims at most one event.
pub fn lines_claim_one_event()
    ensures { (relations : List RelationSchema) (line : List ℕ) (d e : Told) →
        Tells relations line d → Tells relations line e → d ≡ e }
{}
