//! The properties of every history of the chase, step by step: the laws of machines for the chase.
ghost use Rattle.std.specs.Prelude.{ℕ, List, ◌≤◌};
ghost use Rattle.def_machine.specs.Allowed.{AllowedLaw};
ghost use Rattle.def_machine.specs.CallLaw.{CallLaw};
ghost use Rattle.def_machine.specs.CauseLaw.{CauseLaw};
ghost use Rattle.def_machine.specs.DepsLaw.{DepsLaw};
ghost use Rattle.def_machine.specs.Drains.{DrainLaw};
ghost use Rattle.def_machine.specs.History.{HistoryLaw};
ghost use Rattle.def_machine.specs.LegalLaw.{LegalLaw};
ghost use Rattle.def_machine.specs.Local.{LocalLaw};
ghost use Rattle.def_machine.specs.Recorded.{LongerLaw, RecordedLaw};
ghost use Rattle.def_machine.specs.Replay.{PlanLaw, ReplayLaw};
ghost use Rattle.def_machine.specs.Stamps.{StampLaw};
ghost use Rattle.def_machine.specs.Trails.{TrailLaw};
ghost use Rattle.def_machine.specs.WalkLaw.{WalkLaw};
ghost use Rattle.def_machine.specs.Work.{WorkLaw};
ghost use Rattle.def_chase.specs.Mappings.{Rule};
ghost use Rattle.def_steps.specs.Chase.{caused_chase};

/// After every event each update that is not withdrawn is its present attempt's run over the repository that is below it now, so
/// every logged read is valid. The history is legal. An update has at most K + 2 attempts, and n updates have at most n × (K + 2)
/// × B steps.
pub fn attempts_are_runs()
    ensures { (ms : List Rule) (budget : ℕ) → 1 ≤ budget → HistoryLaw (caused_chase ms budget) }
{}

/// An event at an update changes neither the updates below it nor the repository below any of them or below it. The update is not
/// committed, and committed updates stay so.
pub fn events_leave_what_is_below()
    ensures { (ms : List Rule) (budget : ℕ) → 1 ≤ budget → LocalLaw (caused_chase ms budget) }
{}

/// If all logged reads of an attempt are valid over a repository, the attempt is its run over it, wherever its reads were
/// answered. Conversely, the reads of a run are valid.
pub fn valid_reads_make_a_run()
    ensures { (ms : List Rule) (budget : ℕ) → 1 ≤ budget → ReplayLaw (caused_chase ms budget) }
{}

/// If all reads of a step still have their values, it is the step that would be made now.
pub fn valid_reads_make_a_step()
    ensures { (ms : List Rule) (budget : ℕ) → 1 ≤ budget → PlanLaw (caused_chase ms budget) }
{}

/// At the same state and event, each update that restarts with precise dependences also restarts with coarse ones.
pub fn precise_restarts_are_coarse()
    ensures { (ms : List Rule) (budget : ℕ) → 1 ≤ budget → DepsLaw (caused_chase ms budget) }
{}

/// Each restart has a cause that holds, which stands once in the event's entry. The cause is the reader's first read whose value
/// the writes changed, or its first read that depends on updates below it that lost their writes, with the least of these that
/// wrote what it reads.
pub fn aborts_have_causes()
    ensures { (ms : List Rule) (budget : ℕ) → 1 ≤ budget → CauseLaw (caused_chase ms budget) }
{}

/// Each event is allowed exactly if the standing of its update says so, and there is a question exactly if the update is paused.
pub fn standings_allow_events()
    ensures { (ms : List Rule) (budget : ℕ) → AllowedLaw (caused_chase ms budget) }
{}

/// A single walk upwards finds the conflict set and the cascade, and restarts exactly the updates that they name.
pub fn one_walk_settles()
    ensures { (ms : List Rule) (budget : ℕ) → WalkLaw (caused_chase ms budget) }
{}

/// The cascade of an event is the cascade of all updates from the first on, given the numbers of its first members.
pub fn cascades_start_at_the_base()
    ensures { (ms : List Rule) (budget : ℕ) → 1 ≤ budget → CallLaw (caused_chase ms budget) }
{}

/// If a query mentions no relation that an event touches below an update, by adding writes or taking them away, its value there
/// is the same before and after the event.
pub fn untouched_values_stay()
    ensures { (ms : List Rule) (budget : ℕ) → 1 ≤ budget → StampLaw (caused_chase ms budget) }
{}

/// The trail of an update is the writes in the entries of its present attempt.
pub fn histories_tell_the_trails()
    ensures { (ms : List Rule) (budget : ℕ) → 1 ≤ budget → TrailLaw (caused_chase ms budget) }
{}

/// Each step and each delivery lowers the work that is left, so a run of allowed steps and deliveries ends.
pub fn steps_and_deliveries_end()
    ensures { (ms : List Rule) (budget : ℕ) → 1 ≤ budget → WorkLaw (caused_chase ms budget) }
{}

/// As long as a history is not quiet, a step of the lowest ready update, or else a delivery to the lowest update that can have
/// one, is allowed. A run of such events ends in a quiet history, within the work that is left.
pub fn drains_end_quiet()
    ensures { (ms : List Rule) (budget : ℕ) → 1 ≤ budget → DrainLaw (caused_chase ms budget) }
{}

/// Each update does the operation with which it was handed in. Without live answers and withdrawals it has the answers recorded
/// for it.
pub fn histories_keep_the_session()
    ensures { (ms : List Rule) (budget : ℕ) → RecordedLaw (caused_chase ms budget) }
{}

/// A legal history with the entry of an allowed event is legal, prefixes of legal histories are legal, and each leaves only one
/// list of updates.
pub fn legal_histories_grow()
    ensures { (ms : List Rule) (budget : ℕ) → 1 ≤ budget → LegalLaw (caused_chase ms budget) }
{}

/// A history stays a history if further updates are handed in.
pub fn histories_stay_with_more_updates()
    ensures { (ms : List Rule) (budget : ℕ) → LongerLaw (caused_chase ms budget) }
{}
