//! The test of an admission agrees with the grammar.
ghost use Rattle.std.specs.Prelude.{ℕ, List, Decides};
ghost use Rattle.def_language.specs.Sessions.{RelationSchema};
ghost use Rattle.def_chase.specs.Updates.{Operation};
ghost use Rattle.lang_session.specs.Admissible.{IsAdmissible, admits, IsOfProgram};

/// The test of an admission decides whether the operation may stand in a session after `before` updates, and puts no mapping in
/// force. This holds for operations of the program: their integers have 64 bits, their places 32.
pub fn admissions_are_decided()
    ensures { (relations : List RelationSchema) (before : ℕ) (op : Operation) → IsOfProgram op →
        Decides (admits relations before op) (IsAdmissible relations before op) }
{}
