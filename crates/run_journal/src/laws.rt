// Laws of journals. Each is the contract of a function that does nothing.
ghost use Rattle.std.specs.Prelude.{◌≡◌, ◌≤◌, ◌⊎◌, ℕ, List};
ghost use Rattle.def_chase.specs.Repository.{Change};
ghost use Rattle.def_language.specs.Sessions.{SessionData};
ghost use Rattle.run_journal.specs.Journals.{IsJournal, IsWhole};
ghost use Rattle.run_journal.specs.Damage.{IsDamaged, IsDamagedAt};
ghost use Rattle.base_roll.specs.Histories.{InHand, IsAtRest, IsHistory, IsKept, Turn, last_disk};

use base_devices::Disk;
use def_language::{
    every_input_has_one_answer, lines_say_tuples, sessions_are_read_again,
    spelled_sessions_are_valid, tuples_are_read_again,
};

/// Bytes are a journal in at most one way.
pub fn journals_have_one_reading()
    ensures session { (s t : SessionData) (commits others : List (List Change)) (bytes : List ℕ)
        → IsJournal s commits bytes → IsJournal t others bytes → s ≡ t }
    ensures commits { (s : SessionData) (commits others : List (List Change)) (bytes : List ℕ)
        → IsJournal s commits bytes → IsJournal s others bytes → commits ≡ others }
{
    every_input_has_one_answer();
    sessions_are_read_again();
    tuples_are_read_again();
}

/// Bytes that are damaged at some place are not a journal.
pub fn damaged_bytes_are_no_journal()
    ensures { (s : SessionData) (commits : List (List Change)) (bytes : List ℕ) (place : ℕ)
        → IsDamagedAt bytes place → IsJournal s commits bytes → ⊥ }
{
    every_input_has_one_answer();
    sessions_are_read_again();
    tuples_are_read_again();
}

/// Each input is a journal, or is damaged at some place.
pub fn inputs_are_journals_or_damaged()
    ensures { (bytes : List ℕ) → IsWhole bytes ⊎ IsDamaged bytes }
{
    every_input_has_one_answer();
    sessions_are_read_again();
    spelled_sessions_are_valid();
    tuples_are_read_again();
    lines_say_tuples();
}

/// Let there be any list of appends, each with any faults of the disk, and a crash at any moment of any of them. The disk then
/// has a journal with each commit that was acknowledged by then, in order, and with none that was not handed in.
pub fn crashes_keep_what_is_acknowledged<D: Disk>()
    ensures { (s : SessionData) (commits : List (List Change)) (start : D)
        (turns : List (Turn (List Change) D)) (k : ℕ) (bytes : List ℕ)
        → IsAtRest (IsJournal s) (D.state start) commits
        → IsHistory (IsJournal s) D.state start (InHand commits) turns
        → (D.state start).now ≤ k → k ≤ (D.state (last_disk start turns)).now
        → (D.state (last_disk start turns)).image k bytes
        → IsKept (IsJournal s) k D.state commits turns bytes }
{
    journals_have_one_reading();
}
