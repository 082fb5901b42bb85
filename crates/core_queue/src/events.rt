//! What an event does to one queued update. All that may fail for want of memory is done before the event.
ghost use Rattle.std.specs.Prelude.{◌≡◌, ◌+◌, ◌≤◌, [], ◌∷◌, ◌++◌, length, map, take, IfOk, OnOk};
ghost use Rattle.base_types.specs.Meanings.{choice_of};
ghost use Rattle.core_queue.specs.Queues.{StandsAt};
ghost use Rattle.core_queue.specs.Events.{IsAdmitted, IsSame, KeepsPlace, KeepsPlaceBy, HasRoom, HasRoomFor, HasStepped, HasDelivered, HasAnswered, HasWithdrawn};

use crate::updates::QueuedUpdate;
use base_types::{Choice, ChoiceList, List, Memory, TryCopy, Update};
use chase_plan::{Plan, since};
use chase_query::ReadLog;
use chase_update::Attempt;
use core_conflict::Footprint;
use std::alloc::Global;
use std::collections::VecDeque;
use std::mem;

// Room for this number of reads is made with the first read of an attempt, since most attempts have no more.
const MOST_READS: usize = 32;

impl QueuedUpdate {
    /// The update of this number as it is when it is admitted, with these answers recorded for it.
    pub fn admit(
        alloc: Global,
        update: &Update,
        number: u32,
        answers: &ChoiceList,
    ) -> Result<QueuedUpdate, Memory>
        ensures admitted { IfOk result (IsAdmitted number update.now answers.now) }
        ensures place { IfOk result (StandsAt number) }
    {
        let inbox = queued(alloc, answers)?;
        Ok(QueuedUpdate {
            program: Attempt::start(alloc, update, number, 0)?,
            log: ReadLog::new(alloc),
            withdrawn: false,
            answers: ChoiceList::new(alloc),
            inbox,
            footprint: Footprint::empty(),
        })
    }

    /// Makes room for the reads of the plan. The update stays as it is.
    pub fn reserve_reads(&mut self, plan: &Plan) -> Result<(), Memory>
        ensures room { OnOk result (HasRoomFor plan.now self.new) }
        ensures same { IsSame self.old self.new }
        ensures place { KeepsPlace self.old self.new }
    {
        let reads = plan.reads.len();
        if self.log.is_empty() {
            return self.log.reserve(reads.max(MOST_READS));
        }
        self.log.reserve(reads)
    }

    /// Makes room for one more answer. The update stays as it is.
    pub fn reserve_answer(&mut self) -> Result<(), Memory>
        ensures room { OnOk result (HasRoom self.new) }
        ensures same { IsSame self.old self.new }
        ensures place { KeepsPlace self.old self.new }
    {
        self.answers.reserve(1)
    }

    /// Makes the step of the plan: its attempt and its reads are taken over.
    pub fn follow(&mut self, plan: Plan)
        requires room { HasRoomFor plan self.old }
        ensures stepped { HasStepped plan self.old self.new }
        ensures place { KeepsPlaceBy plan self.old self.new }
    {
        let made = self.program.own().len() as u64;
        let writes = since(plan.program.own().as_slice(), made);
        self.footprint = self.footprint.after(writes, plan.reads.as_slice());
        let Plan { program, reads } = plan;
        renew(&mut self.program, program);
        take_over(&mut self.log, reads);
    }

    /// Delivers the first recorded answer, if there is one.
    pub fn deliver(&mut self)
        requires room { HasRoom self.old }
        ensures delivered { HasDelivered self.old self.new }
        ensures place { KeepsPlace self.old self.new }
    {
        if let Some(choice) = self.inbox.pop_front() {
            put_last(&mut self.answers, choice);
        }
    }

    /// Makes the choice the answer that the attempt waits for; answers that were delivered for later questions are dropped.
    pub fn answer(&mut self, alloc: Global, choice: Choice)
        requires room { HasRoom self.old }
        ensures answered { HasAnswered choice self.old self.new }
        ensures place { KeepsPlace self.old self.new }
    {
        let taken = self.program.taken() as usize;
        if taken < self.answers.len() {
            keep(alloc, &mut self.answers, taken + 1);
            self.answers.put(taken, choice);
        } else {
            put_last(&mut self.answers, choice);
        }
    }

    /// Withdraws the update: it loses its trail and its log.
    pub fn withdraw(&mut self)
        ensures withdrawn { HasWithdrawn self.old self.new }
        ensures place { KeepsPlace self.old self.new }
    {
        self.log.clear();
        self.withdrawn = true;
    }
}

// Puts the attempt in the place of another one, which is dropped.
pub(crate) fn renew(place: &mut Attempt, fresh: Attempt)
    ensures fresh { place.new ≡ fresh }
{
    drop(mem::replace(place, fresh));
}

// Copies of the answers as a queue.
fn queued(alloc: Global, answers: &ChoiceList) -> Result<VecDeque<Choice>, Memory>
    ensures same { IfOk result (λ queue.
        map choice_of queue.items ≡ map choice_of answers.now.items) }
{
    let mut queue = VecDeque::new(alloc);
    for answer in answers.as_slice() {
        queue.push_back(answer.copy(alloc)?)?;
    }
    Ok(queue)
}

// Moves the reads to the end of the log, which has room for them.
fn take_over(log: &mut ReadLog, reads: ReadLog)
    requires room { length reads.items ≤ log.old.spare }
    ensures all { log.new.items ≡ log.old.items ++ reads.items }
{
    let mut moved = reads;
    match log.append(&mut moved) {
        Ok(()) => {}
        Err(_) => unreachable!(),
    }
}

// Puts the item at the end of the list, which has room for it.
fn put_last<T: Drop>(list: &mut List<T>, item: T)
    requires room { 1 ≤ list.old.spare }
    ensures all { list.new.items ≡ list.old.items ++ item ∷ [] }
    ensures spare { list.old.spare ≤ list.new.spare + 1 }
{
    match list.push(item) {
        Ok(()) => {}
        Err(_) => unreachable!(),
    }
}

// Drops the answers after the first `many`.
fn keep(alloc: Global, answers: &mut ChoiceList, many: usize)
    ensures first { answers.new.items ≡ take many answers.old.items }
{
    let mut items = mem::replace(answers, List::new(alloc)).into_vec();
    items.truncate(many);
    *answers = List::from_vec(items);
}
