//! Laws of tuples that stand on a line by themselves.

ghost use Rattle.std.specs.Prelude.{◌≡◌, ℕ, List, Ok, IsUtf8};
ghost use Rattle.def_chase.specs.Values.{Fact};
ghost use Rattle.def_language.specs.Lone.{IsReadAgain, IsTuple, lone_fact};
ghost use Rattle.def_language.specs.Meaning.{fact_of};
ghost use Rattle.def_language.specs.Sessions.{RelationSchema, SessionData};
ghost use Rattle.def_language.specs.Statements.{WrittenFact};
ghost use Rattle.def_language.specs.Validity.{IsSession};

/// The printed form of a tuple of a session's relations is one line of text, and reading it gives the tuple back, whatever
/// updates its nulls are from.
pub fn tuples_are_read_again()
    ensures { (s : SessionData) (t : Fact) → IsSession s → IsTuple s.relations t →
        IsReadAgain s.relations t }
{}

/// If a line of text spells a fact that fits some relations, it gives a tuple of them.
pub fn lines_say_tuples()
    ensures { (relations : List RelationSchema) (line : List ℕ) (fact : WrittenFact) (t : Fact) →
        IsUtf8 line → lone_fact line ≡ Ok fact → fact_of relations fact ≡ Ok t →
        IsTuple relations t }
{}
