// The laws of a desk's record, for the chase. Their proofs take any machine that meets the laws of machines.
ghost use Rattle.std.specs.Prelude.{ℕ, List, ◌≤◌};
ghost use Rattle.def_machine.specs.Effects.{Entry};
ghost use Rattle.def_machine.specs.Updates.{Session, Settings};
ghost use Rattle.def_chase.specs.Mappings.{Rule};
ghost use Rattle.def_steps.specs.Chase.{caused_chase};
ghost use Rattle.def_history.specs.Cores.{Ground};
ghost use Rattle.def_history.specs.PlainEntries.{PlainEntry};
ghost use Rattle.def_record.specs.Answers.{QuietAnswer};
ghost use Rattle.def_record.specs.Apart.{ApartLaw};
ghost use Rattle.def_record.specs.Calls.{CallLaw};
ghost use Rattle.def_record.specs.Given.{GivenLaw};
ghost use Rattle.def_record.specs.Held.{HeldLaw};
ghost use Rattle.def_record.specs.Marks.{MarkLaw};
ghost use Rattle.def_record.specs.Openings.{OpeningLaw};
ghost use Rattle.def_record.specs.Records.{RecordLaw};
ghost use Rattle.def_record.specs.Rests.{RestLaw};
ghost use Rattle.def_record.specs.Results.{ResultLaw};
ghost use Rattle.def_record.specs.SmallRecords.{RecordRows};
ghost use Rattle.def_record.specs.Stays.{StayLaw};

/// The record has the history's entries, further marks are further items, and a translation of the entries translates the record.
/// It is stated for plain entries and those of the chase, and proved for all types.
pub fn marks_stand_for_items()
    ensures { (ms : List Rule) (budget : ℕ) →
        MarkLaw Ground PlainEntry (Settings × Session (caused_chase ms budget))
        (Entry (caused_chase ms budget)) }
{}

/// The answer is Quiet exactly if it is quiet and no ticket is out.
pub fn quiet_is_rest()
    ensures { (ms : List Rule) (budget : ℕ) → QuietAnswer (caused_chase ms budget) }
{}

/// If each seat is at rest by the part of the record that it has seen, and has seen all items that it made, the whole record is
/// at rest.
pub fn seats_at_rest_end_at_rest()
    ensures { (ms : List Rule) (budget : ℕ) → RestLaw (caused_chase ms budget) }
{}

/// The history in a record is legal, and leaves the updates in the record's state.
pub fn records_are_legal()
    ensures { (ms : List Rule) (budget : ℕ) → 1 ≤ budget →
        RecordLaw (caused_chase ms budget) }
{}

/// A ticket that is out for a seat stays out while others go on, and its update makes no step meanwhile.
pub fn tickets_stay_out()
    ensures { (ms : List Rule) (budget : ℕ) → StayLaw (caused_chase ms budget) }
{}

/// The items that `next`, `finish` and `give_back` add to the record of an open desk may follow there, and a ticket that is given
/// is out.
pub fn calls_add_what_may_follow()
    ensures { (ms : List Rule) (budget : ℕ) → 1 ≤ budget →
        CallLaw (caused_chase ms budget) }
{}

/// The record of a new desk is that of a single mark, and leaves the state of the core over which it was made.
pub fn desks_open_on_their_core()
    ensures { (ms : List Rule) (budget : ℕ) → OpeningLaw (caused_chase ms budget) }
{}

/// If all seats of a desk are at rest, its history is legal, ends quiet, and has the serial machine's result on the session;
/// every mapping in force holds in the repository that it leaves.
pub fn desks_at_rest_end_serially()
    ensures { ResultLaw }
{}

/// Each ticket number is given once, and each update has at most one ticket out, and none after it is returned.
pub fn tickets_are_given_once()
    ensures { (ms : List Rule) (budget : ℕ) → 1 ≤ budget →
        ApartLaw (caused_chase ms budget) }
{}

/// A computed record of a small machine, item by item, in which two seats meet.
pub fn small_records_compute()
    ensures { RecordRows }
{}

/// As long as a ticket is out and no step was made with it, its update makes no step, whatever its seat does with other tickets.
pub fn held_tickets_hold_their_update()
    ensures { (ms : List Rule) (budget : ℕ) → 1 ≤ budget →
        HeldLaw (caused_chase ms budget) }
{}

/// The stamp of a ticket that is out, and with which no step was made, determines the state at which it was given: its update was
/// ready there, and since then has made no step and was not withdrawn.
pub fn tickets_tell_their_state()
    ensures { (ms : List Rule) (budget : ℕ) → 1 ≤ budget →
        GivenLaw (caused_chase ms budget) }
{}
