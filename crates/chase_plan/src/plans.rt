//! One step of an attempt over a set of tuples, with its reads.
ghost use Rattle.std.specs.Prelude.{◌≡◌, ◌<◌, [], map, IfOk, OnOk};
ghost use Rattle.std.specs.Option.{option_map, option_copied};
ghost use Rattle.def_machine.specs.Trees.{result_of, log_of};
ghost use Rattle.def_chase.specs.Queries.{value};
ghost use Rattle.def_chase.specs.Repository.{IsRepository, apply};
ghost use Rattle.def_chase.specs.Violations.{Caused};
ghost use Rattle.base_types.specs.Meanings.{choice_of, heading_of};
ghost use Rattle.chase_eval.specs.Watched.{AreSettled, seen_over};
ghost use Rattle.chase_query.specs.Meanings.{reads_in};
ghost use Rattle.def_steps.specs.Steps.{step};
ghost use Rattle.chase_update.specs.Courses.{coming_to, course};
ghost use Rattle.chase_update.specs.Wishes.{wish};
ghost use Rattle.chase_update.specs.Logged.{read_after};
ghost use Rattle.chase_plan.specs.Planned.{at_rest, HasSettled, WantsStep, next_attempt, next_reads};

use base_limits::{Budget, Mappings};
use base_types::{Choice, Direction, Facts, Memory, TryCopy};
use chase_eval::{AppliedView, Settled};
use chase_query::{Logged, LoggedRead, ReadLog};
use chase_update::{Attempt, Want};
use std::alloc::Global;

// A new log has room for this number of entries.
const AT_ONCE: usize = 4;

/// The next step of an attempt: the attempt after it, and the reads of the step in order.
#[derive(Drop)]
pub struct Plan {
    pub program: Attempt,
    pub reads: ReadLog,
}

/// The chase that an attempt is part of: its mappings, and the number of steps that an update may take.
#[derive(Drop)]
pub struct Chase<'a> {
    pub mappings: &'a Mappings<'a>,
    pub budget: Budget,
}

/// The ground of an attempt: the repository below it, and the same repository with the attempt's own writes made.
#[derive(Drop)]
pub struct Footing<'a, F: Facts> {
    pub below: &'a F,
    pub with: &'a F,
}

/// The next step of the attempt on its footing, with the answer if it is at a question. The step is made on `branch`, a copy of
/// the attempt, and the attempt stays unchanged. `settled` marks mappings known to have no violation that the attempt's writes
/// caused; after the call it marks those known after the step.
pub fn plan_step<F: Facts>(
    alloc: Global,
    program: &Attempt,
    branch: Attempt,
    choice: Option<&Choice>,
    chase: &Chase<'_>,
    footing: &Footing<'_, F>,
    settled: &mut Settled,
) -> Result<Plan, Memory>
    requires branch { branch ≡ program.now }
    requires applied { F.tuples footing.now.with.now
        ≡ apply (F.tuples footing.now.below.now) program.now.attempt.own }
    requires settled { HasSettled chase.now.mappings.now (F.tuples footing.now.below.now)
        program.now.attempt settled.old }
    requires wanted { WantsStep (wish program.now) (option_map choice_of (option_copied choice)) }
    requires left { program.now.attempt.steps < chase.now.budget }
    ensures program { IfOk result (λ plan.
        plan.program
        ≡ at_rest
        (next_attempt chase.now.mappings.now chase.now.budget (F.tuples footing.now.below.now)
        program.now.attempt (option_map choice_of (option_copied choice.entry)))) }
    ensures reads { IfOk result (λ plan.
        reads_in plan.reads.items
        ≡ next_reads chase.now.mappings.now (F.tuples footing.now.below.now) program.now.attempt
        (option_map choice_of (option_copied choice.entry))) }
    ensures settled { OnOk result (HasSettled chase.now.mappings.now
        (F.tuples footing.now.below.now) program.now.attempt settled.new) }
{
    let mut after = branch;
    match take_step(alloc, program, &mut after, choice, chase, footing, settled) {
        Ok(reads) => Ok(Plan {
            program: after,
            reads,
        }),
        Err(refusal) => {
            drop(after);
            Err(refusal)
        }
    }
}

// Takes the next step of the attempt on `after`, a copy of it, and returns the step's reads.
fn take_step<F: Facts>(
    alloc: Global,
    program: &Attempt,
    after: &mut Attempt,
    choice: Option<&Choice>,
    chase: &Chase<'_>,
    footing: &Footing<'_, F>,
    settled: &mut Settled,
) -> Result<ReadLog, Memory>
    requires same { after.old ≡ program.now }
    requires applied { F.tuples footing.now.with.now
        ≡ apply (F.tuples footing.now.below.now) program.now.attempt.own }
    requires settled { HasSettled chase.now.mappings.now (F.tuples footing.now.below.now)
        program.now.attempt settled.old }
    requires wanted { WantsStep (wish program.now) (option_map choice_of (option_copied choice)) }
    requires left { program.now.attempt.steps < chase.now.budget }
    ensures program { OnOk result (after.new ≡ at_rest
        (next_attempt chase.now.mappings.now chase.now.budget (F.tuples footing.now.below.now)
        program.now.attempt (option_map choice_of (option_copied choice.entry)))) }
    ensures reads { IfOk result (λ reads.
        reads_in reads.items
        ≡ next_reads chase.now.mappings.now (F.tuples footing.now.below.now) program.now.attempt
        (option_map choice_of (option_copied choice.entry))) }
    ensures settled { OnOk result (HasSettled chase.now.mappings.now
        (F.tuples footing.now.below.now) program.now.attempt settled.new) }
{
    // The set promises that it is in order.
    footing.below.is_in_order();
    let mappings = chase.mappings;
    let own = program.own();
    let view = AppliedView::new(footing.below, footing.with, own);
    begin(alloc, after, choice, mappings, chase.budget)?;
    let made = own.len() as u64;
    let direction = program.direction();
    let reads = answer_all(alloc, after, &view, settled, mappings, direction, made)?;
    after.share(alloc, program)?;
    Ok(reads)
}

// Begins the step, up to its first query or its end.
fn begin(
    alloc: Global,
    program: &mut Attempt,
    choice: Option<&Choice>,
    mappings: &Mappings<'_>,
    budget: Budget,
) -> Result<(), Memory>
    requires wanted { WantsStep (wish program.old) (option_map choice_of (option_copied choice)) }
    requires left { program.old.attempt.steps < budget }
    ensures step { OnOk result
        (course mappings.now program.new
        ≡ coming_to budget program.old.attempt
        (step mappings.now program.old.attempt
        (option_map choice_of (option_copied choice.entry)))) }
{
    match choice {
        Some(choice) => program.choose(alloc, choice, mappings, budget),
        None => program.begin(alloc, mappings, budget),
    }
}

// Answers the queries of the step in hand from the view, up to the step's end, and returns the reads. `made` is the number of own
// writes before the step.
fn answer_all<F: Facts>(
    alloc: Global,
    program: &mut Attempt,
    view: &AppliedView<'_, F>,
    settled: &mut Settled,
    mappings: &Mappings<'_>,
    direction: Direction,
    made: u64,
) -> Result<ReadLog, Memory>
    requires sorted { IsRepository view.now.below }
    requires settled { AreSettled (seen_over mappings.now (heading_of direction) view.now)
        settled.old }
    ensures answered { OnOk result
        (program.new
        ≡ at_rest
        (result_of
        (λ q.
        value mappings.now q view.now.below view.now.own (Caused (heading_of direction)))
        (course mappings.now program.old))) }
    ensures reads { IfOk result (λ reads.
        reads_in reads.items
        ≡ map (read_after made)
        (log_of
        (λ q. value mappings.now q view.now.below view.now.own (Caused (heading_of direction)))
        (course mappings.now program.old))) }
    ensures settled { OnOk result (AreSettled
        (seen_over mappings.now (heading_of direction) view.now) settled.new) }
{
    let mut reads = log_begun(alloc)?;
    'queries: loop {
        program.pass_logged(settled.marks(), mappings, made, &mut reads)?;
        let Want::Read(query) = program.wants() else {
            return Ok(reads);
        };
        let query = query.copy(alloc)?;
        let answer = view.eval(&query, mappings.list(), direction, settled, alloc)?;
        program.take(alloc, &answer, mappings)?;
        reads.push(Logged::Asked(LoggedRead {
            query,
            answer,
            own: made,
        }))?;
    }
}

// An empty log, with room for the entries of most steps.
fn log_begun(alloc: Global) -> Result<ReadLog, Memory>
    ensures empty { IfOk result (λ log. log.items ≡ []) }
{
    let mut log = ReadLog::new(alloc);
    log.reserve(AT_ONCE)?;
    Ok(log)
}
