//! The theorem on concurrent attempts, for an abstract machine that asks queries of a repository.
//!
//! Each function here is a law: its contract is the statement and its body is empty. The definitions stand in `specs/`. A law of
//! all machines is stated for a small one, since a clause cannot speak of all machines. Its proof in `proofs/` takes any machine
//! that meets the laws of `specs/Machine.antt`.
#![tactic(auto)]

ghost use Rattle.std.specs.Prelude.{ℕ, ◌≤◌};
ghost use Rattle.def_machine.specs.Allowed.{AllowedLaw};
ghost use Rattle.def_machine.specs.CallLaw.{CallLaw};
ghost use Rattle.def_machine.specs.CauseLaw.{CauseLaw};
ghost use Rattle.def_machine.specs.DepsLaw.{DepsLaw};
ghost use Rattle.def_machine.specs.Drains.{DrainLaw};
ghost use Rattle.def_machine.specs.History.{HistoryLaw};
ghost use Rattle.def_machine.specs.LegalLaw.{LegalLaw};
ghost use Rattle.def_machine.specs.Local.{LocalLaw};
ghost use Rattle.def_machine.specs.Quiet.{QuietLaw};
ghost use Rattle.def_machine.specs.Recorded.{LongerLaw, RecordedLaw};
ghost use Rattle.def_machine.specs.Replay.{PlanLaw, ReplayLaw};
ghost use Rattle.def_machine.specs.Rests.{RestLaw};
ghost use Rattle.def_machine.specs.Small.{small};
ghost use Rattle.def_machine.specs.SmallHistories.{SmallRows};
ghost use Rattle.def_machine.specs.SmallSessions.{SmallSessions};
ghost use Rattle.def_machine.specs.Stamps.{StampLaw};
ghost use Rattle.def_machine.specs.Trails.{TrailLaw};
ghost use Rattle.def_machine.specs.Trees.{Tree};
ghost use Rattle.def_machine.specs.TreeLaw.{IsReplay};
ghost use Rattle.def_machine.specs.WalkLaw.{WalkLaw};
ghost use Rattle.def_machine.specs.Work.{WorkLaw};

/// The answers in its log determine the run of a program that asks questions: if the questions get these answers, from whomever
/// and whenever, the result and the log are the same. It is stated for questions, answers and results that are numbers, and
/// proved for all types.
pub fn replays_by_its_log()
    ensures { (program : Tree ℕ ℕ ℕ) → IsReplay program }
{}

/// Whatever the order of admissions, steps, deliveries, answers and withdrawals, with restarts and cascades: every logged read is
/// valid, each update is its run over the repository below it, and the committed updates leave what the serial machine leaves. A
/// quiet history has the serial machine's whole result. The numbers of attempts and steps are bounded.
pub fn histories_are_serial()
    ensures { (budget : ℕ) → 1 ≤ budget → HistoryLaw (small budget) }
{}

/// A quiet history of recorded events over a whole session has the serial machine's result on that session, up to the numbers of
/// attempts.
pub fn quiet_histories_are_the_session()
    ensures { (budget : ℕ) → 1 ≤ budget → QuietLaw (small budget) }
{}

/// If all logged reads of an attempt are valid over a repository, the attempt is the machine's run over it, wherever its reads
/// were answered. Conversely, the reads of a run are valid.
pub fn valid_reads_make_a_run()
    ensures { (budget : ℕ) → 1 ≤ budget → ReplayLaw (small budget) }
{}

/// If all reads of a step still have their values, it is the step that would be made now.
pub fn valid_reads_make_a_step()
    ensures { (budget : ℕ) → 1 ≤ budget → PlanLaw (small budget) }
{}

/// An event at an update changes neither the updates below it nor the repository below any of them or below it. The update is not
/// committed, and committed updates stay so.
pub fn events_leave_what_is_below()
    ensures { (budget : ℕ) → 1 ≤ budget → LocalLaw (small budget) }
{}

/// Each event is allowed exactly if the standing of its update says so, and there is a question exactly if the update is paused.
pub fn standings_allow_events()
    ensures { (budget : ℕ) → AllowedLaw (small budget) }
{}

/// Each restart has a cause that holds, which stands once in the event's entry. The cause is the reader's first read whose value
/// the writes changed, or its first read that depends on updates below it that lost their writes, with the least of these that
/// wrote what it reads.
pub fn aborts_have_causes()
    ensures { (budget : ℕ) → 1 ≤ budget → CauseLaw (small budget) }
{}

/// At the same state and event, each update that restarts with precise dependences also restarts with coarse ones.
pub fn precise_restarts_are_coarse()
    ensures { (budget : ℕ) → 1 ≤ budget → DepsLaw (small budget) }
{}

/// The cascade of an event is the cascade of all updates from the first on, given the numbers of its first members.
pub fn cascades_start_at_the_base()
    ensures { (budget : ℕ) → 1 ≤ budget → CallLaw (small budget) }
{}

/// A single walk upwards finds the conflict set and the cascade, and restarts exactly the updates that they name.
pub fn one_walk_settles()
    ensures { (budget : ℕ) → WalkLaw (small budget) }
{}

/// If a query mentions no relation that an event touches below an update, by adding writes or taking them away, its value there
/// is the same before and after the event.
pub fn untouched_values_stay()
    ensures { (budget : ℕ) → 1 ≤ budget → StampLaw (small budget) }
{}

/// The trail of an update is the writes in the entries of its present attempt.
pub fn histories_tell_the_trails()
    ensures { (budget : ℕ) → 1 ≤ budget → TrailLaw (small budget) }
{}

/// Each step and each delivery lowers the work that is left, so a run of allowed steps and deliveries ends.
pub fn steps_and_deliveries_end()
    ensures { (budget : ℕ) → 1 ≤ budget → WorkLaw (small budget) }
{}

/// As long as a history is not quiet, a step of the lowest ready update, or else a delivery to the lowest update that can have
/// one, is allowed. A run of such events ends in a quiet history, within the work that is left.
pub fn drains_end_quiet()
    ensures { (budget : ℕ) → 1 ≤ budget → DrainLaw (small budget) }
{}

/// Each update does the operation with which it was handed in. Without live answers and withdrawals it has the answers recorded
/// for it.
pub fn histories_keep_the_session()
    ensures { (budget : ℕ) → RecordedLaw (small budget) }
{}

/// A legal history with the entry of an allowed event is legal, prefixes of legal histories are legal, and each leaves only one
/// list of updates.
pub fn legal_histories_grow()
    ensures { (budget : ℕ) → 1 ≤ budget → LegalLaw (small budget) }
{}

/// A history stays a history if further updates are handed in.
pub fn histories_stay_with_more_updates()
    ensures { (budget : ℕ) → LongerLaw (small budget) }
{}

/// An update taken whole ends within its budget of steps, or stops at a question that has no fitting answer.
pub fn turns_come_to_rest()
    ensures { (budget : ℕ) → 1 ≤ budget → RestLaw (small budget) }
{}

/// Whatever the order of recorded events over a whole session, a quiet history of the small machine has its serial result on the
/// session, with each update's first attempt. It follows from the laws above and a simulation of the machine by itself.
pub fn small_sessions_have_one_result()
    ensures { SmallSessions }
{}

/// Computed histories, entry by entry: with a conflict, a held update, a cascade of two levels under both kinds of dependence, a
/// withdrawal and a spent attempt.
pub fn small_histories_compute()
    ensures { SmallRows }
{}
