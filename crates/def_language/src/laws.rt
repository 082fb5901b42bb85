//! Laws of the language.

ghost use Rattle.std.specs.Prelude.{◌≡◌, ◌⊎◌, ℕ, Bool, true, false, pos, List, [], ◌∷◌, ◌++◌, length, ◌==◌, flat_map, Ok, Err, Decides};
ghost use Rattle.def_chase.specs.Values.{Fact};
ghost use Rattle.def_chase.specs.Mappings.{Rule, force_relation};
ghost use Rattle.def_language.specs.Cycles.{HasPlainCycle, Path, has_plain_cycle, through};
ghost use Rattle.std.specs.List.{AllByRecursion};
ghost use Rattle.std.specs.Str.{IsValidUpTo};
ghost use Rattle.def_language.specs.Layout.{IsSpoken, laid_out};
ghost use Rattle.def_language.specs.declared.Which.TheVariants as limit;
ghost use Rattle.def_language.specs.Checks.{add_relation};
ghost use Rattle.def_language.specs.Faults.{BadByte, LimitReached, Wrong};
ghost use Rattle.def_language.specs.Names.{Name, is_one_of};
ghost use Rattle.def_language.specs.Forms.{Section, statement_at};
ghost use Rattle.def_language.specs.Grammar.{statement_words};
ghost use Rattle.def_language.specs.Sayable.{IsSayable, MayStand};
ghost use Rattle.def_language.specs.Lines.{IsFirstFault, Spells, line_number};
ghost use Rattle.def_language.specs.Printing.{printed, statements_of, tuple_text, written_fact};
ghost use Rattle.def_language.specs.Sessions.{RelationSchema, SessionData, relation_names};
ghost use Rattle.def_language.specs.Validity.{IsSession};
ghost use Rattle.def_language.specs.Statements.{Statement};
ghost use Rattle.def_language.specs.Texts.{HasMembers, fact_text, statement_text};
ghost use Rattle.def_language.specs.Words.{Word, words_at};

/// Reading a line on which words are laid out gives the words back.
pub fn words_are_read_again()
    ensures { (words : List Word) → AllByRecursion IsSpoken words →
        words_at (laid_out words) ≡ Ok words }
{}

/// The closure decides which relation leads to which, and so whether mappings have a plain cycle.
pub fn closure_decides()
    ensures paths { (edge : ℕ → ℕ → Bool) (n r s : ℕ) →
        Decides (through edge n r s) (Path edge n r s) }
    ensures cycles { (n : ℕ) (ms : List Rule) →
        Decides (has_plain_cycle n ms) (HasPlainCycle n ms) }
{}

/// The words of a statement are read as the statement, if it may stand there.
pub fn statements_are_read_again()
    ensures { (section : Section) (format : ℕ) (st : Statement) → MayStand section st →
        IsSayable format st → statement_at section format (statement_words st) ≡ Ok st }
{}

/// The printed form of a session spells it.
pub fn sessions_are_read_again()
    ensures { (s : SessionData) → IsSession s → Spells (printed s) s }
{}

/// Words are read as a statement only if they are the words of that statement, and the statement has a spelling and may stand
/// there.
pub fn nothing_else_is_read()
    ensures { (section : Section) (format : ℕ) (words : List Word) (st : Statement) →
        statement_at section format words ≡ Ok st →
        (words ≡ statement_words st) × IsSayable format st × MayStand section st }
{}

/// A session that bytes spell passes all checks.
pub fn spelled_sessions_are_valid()
    ensures { (bytes : List ℕ) (s : SessionData) → Spells bytes s → IsSession s }
{}

/// Every input has exactly one answer: the session that it spells, or its first fault. The printed form of that session spells it
/// too.
pub fn every_input_has_one_answer()
    ensures some { (bytes : List ℕ) → ((s : SessionData) × Spells bytes s) ⊎
        ((wrong : Wrong) × IsFirstFault bytes wrong) }
    ensures one_session { (bytes : List ℕ) (s t : SessionData) → Spells bytes s → Spells bytes t →
        s ≡ t }
    ensures one_fault { (bytes : List ℕ) (v w : Wrong) → IsFirstFault bytes v →
        IsFirstFault bytes w → v ≡ w }
    ensures apart { (bytes : List ℕ) (s : SessionData) (wrong : Wrong) → Spells bytes s →
        IsFirstFault bytes wrong → ⊥ }
    ensures printed_again { (bytes : List ℕ) (s : SessionData) → Spells bytes s →
        Spells (printed s) s }
{}

/// The first fault of bytes that are not UTF-8 is at the end of their longest prefix that is.
pub fn bytes_are_text_first()
    ensures { (bytes : List ℕ) (place : ℕ) → IsValidUpTo bytes place →
        IsFirstFault bytes (record { line = line_number bytes place; kind = BadByte place }) }
{}

/// The 65th relation is too many in format 1, but not in format 2.
pub fn format_2_has_more_relations()
    ensures in_1 { (s : SessionData) (n : Name) → s.format ≡ 1 → length s.relations ≡ 64 →
        is_one_of (relation_names s.relations) n ≡ false →
        add_relation s n (pos 1) ≡ Err (LimitReached limit.Relations) }
    ensures in_2 { (s : SessionData) (n : Name) → s.format ≡ 2 → length s.relations ≡ 64 →
        is_one_of (relation_names s.relations) n ≡ false →
        add_relation s n (pos 1) ≡
        Ok (record s { relations = s.relations ++ record { name = n; arity = 1 } ∷ [] }) }
{}

/// The layout of a statement's words, and so the printed form, written out directly.
pub fn statements_are_written_directly()
    ensures session { (s : SessionData) → IsSession s →
        printed s ≡ flat_map (λ st. statement_text st ++ 10 ∷ []) (statements_of s) }
    ensures tuple { (relations : List RelationSchema) (t : Fact) →
        (t.relation == force_relation) ≡ false →
        fact_text (written_fact relations t) ≡ tuple_text relations false t }
    ensures statement { (st : Statement) → HasMembers st →
        laid_out (statement_words st) ≡ statement_text st }
{}
