//! What an event does to one audited update.
ghost use Rattle.std.specs.Prelude.{◌≡◌, ◌≤◌, ◌++◌, [], ◌∷◌, length, map, take, IfOk, OnOk, OnErr, IsOk};
ghost use Rattle.base_types.specs.Meanings.{choice_of};
ghost use Rattle.audit_updates.specs.Updates.{StandsAt};
ghost use Rattle.audit_updates.specs.Events.{IsAdmitted, IsSame, KeepsPlace, KeepsPlaceBy, HasStepped, HasDelivered, HasAnswered, HasWithdrawn};

use crate::updates::AuditedUpdate;
use base_types::{Choice, ChoiceList, List, Memory, TryCopy, Update};
use chase_plan::Plan;
use chase_query::ReadLog;
use chase_update::Attempt;
use std::alloc::Global;
use std::collections::VecDeque;
use std::mem;

impl AuditedUpdate {
    /// The update `number` as it is when it is admitted, with `answers` recorded for it.
    pub fn admit(
        alloc: Global,
        update: &Update,
        number: u32,
        answers: &ChoiceList,
    ) -> Result<AuditedUpdate, Memory>
        ensures admitted { IfOk result (IsAdmitted number update.now answers.now) }
        ensures place { IfOk result (StandsAt number) }
    {
        let inbox = queued(alloc, answers)?;
        Ok(AuditedUpdate {
            program: Attempt::start(alloc, update, number, 0)?,
            log: ReadLog::new(alloc),
            withdrawn: false,
            answers: ChoiceList::new(alloc),
            inbox,
        })
    }

    /// Makes the step of the plan: the update takes the plan's attempt and reads. After an error the update is unchanged.
    pub fn step(&mut self, plan: Plan) -> Result<(), Memory>
        ensures stepped { OnOk result (HasStepped plan self.old self.new) }
        ensures place { OnOk result (KeepsPlaceBy plan self.old self.new) }
        ensures err { OnErr result (IsSame self.old self.new) }
    {
        match self.log.reserve(plan.reads.len()) {
            Ok(()) => self.follow(plan),
            Err(memory) => {
                drop(plan);
                Err(memory)
            }
        }
    }

    // Makes the step of the plan. There is room for its reads.
    fn follow(&mut self, plan: Plan) -> Result<(), Memory>
        requires room { length plan.reads.items ≤ self.old.log.spare }
        ensures ok { IsOk result }
        ensures stepped { HasStepped plan self.old self.new }
        ensures place { KeepsPlaceBy plan self.old self.new }
    {
        let Plan { program, reads } = plan;
        renew(&mut self.program, program);
        take_over(&mut self.log, reads)
    }

    /// Delivers the first recorded answer, if there is one. After an error the update is unchanged.
    pub fn deliver(&mut self) -> Result<(), Memory>
        ensures delivered { OnOk result (HasDelivered self.old self.new) }
        ensures place { OnOk result (KeepsPlace self.old self.new) }
        ensures err { OnErr result (IsSame self.old self.new) }
    {
        self.answers.reserve(1)?;
        if let Some(choice) = self.inbox.pop_front() {
            self.answers.push(choice)?;
            return Ok(());
        }
        Ok(())
    }

    /// Makes the choice the next answer of the attempt; answers that were delivered for later questions are dropped. After an
    /// error the update is unchanged.
    pub fn answer(&mut self, alloc: Global, choice: Choice) -> Result<(), Memory>
        ensures answered { OnOk result (HasAnswered choice self.old self.new) }
        ensures place { OnOk result (KeepsPlace self.old self.new) }
        ensures err { OnErr result (IsSame self.old self.new) }
    {
        let taken = self.program.taken() as usize;
        put_at(alloc, &mut self.answers, taken, choice)?;
        Ok(())
    }

    /// Withdraws the update, which loses its trail and its log.
    pub fn withdraw(&mut self)
        ensures withdrawn { HasWithdrawn self.old self.new }
        ensures place { KeepsPlace self.old self.new }
    {
        self.log.clear();
        self.withdrawn = true;
    }
}

// Puts the attempt in the place of another one, which is dropped.
pub(crate) fn renew(place: &mut Attempt, fresh: Attempt)
    ensures fresh { place.new ≡ fresh }
{
    drop(mem::replace(place, fresh));
}

// A queue of copies of the answers.
fn queued(alloc: Global, answers: &ChoiceList) -> Result<VecDeque<Choice>, Memory>
    ensures same { IfOk result (λ queue.
        map choice_of queue.items ≡ map choice_of answers.now.items) }
{
    let mut queue = VecDeque::new(alloc);
    for answer in answers.as_slice() {
        queue.push_back(answer.copy(alloc)?)?;
    }
    Ok(queue)
}

// Appends the reads to the log, which has room for them.
fn take_over(log: &mut ReadLog, reads: ReadLog) -> Result<(), Memory>
    requires room { length reads.items ≤ log.old.spare }
    ensures ok { IsOk result }
    ensures all { log.new.items ≡ log.old.items ++ reads.items }
{
    for entry in reads.into_vec() {
        log.push(entry)?;
    }
    Ok(())
}

// Keeps the first `many` answers, and puts the choice after them in place of all others. After an error the answers are
// unchanged.
fn put_at(
    alloc: Global,
    answers: &mut ChoiceList,
    many: usize,
    choice: Choice,
) -> Result<(), Memory>
    ensures put { OnOk result
        (answers.new.items ≡ take many answers.old.items ++ choice ∷ []) }
    ensures err { OnErr result (answers.new.items ≡ answers.old.items) }
{
    if many < answers.len() {
        keep(alloc, answers, many + 1);
        answers.put(many, choice);
        return Ok(());
    }
    answers.push(choice)?;
    Ok(())
}

// Keeps the first `many` answers, and drops the others.
fn keep(alloc: Global, answers: &mut ChoiceList, many: usize)
    ensures first { answers.new.items ≡ take many answers.old.items }
{
    let mut items = mem::replace(answers, List::new(alloc)).into_vec();
    items.truncate(many);
    *answers = List::from_vec(items);
}
