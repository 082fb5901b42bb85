//! Undo and redo: all lines that count are replayed.
ghost use Rattle.std.specs.Prelude.{◌≡◌, None, OnOk, IfOk};
ghost use Rattle.ws_state.specs.Stands.{what_stands, what_stood, GoesOn};
ghost use Rattle.ws_state.specs.Returns.{IsBackAt, TakesBack};

use crate::compared::{Before, by_held, same_writes, status_in};
use crate::counted::keep_counted;
use crate::latest::{Latest, keep, take_latest};
use crate::states::{Event, HeldList, Said, State, Told};
use crate::visible::{Visible, came_between, visible_of};
use crate::worlds::{StandingList, Status, Waiting, WaitingList, World, renew, wait_no_more};
use base_types::{List, MappingList, Memory, NumberList, TryCopy, TupleList};
use std::alloc::Global;
use std::collections::BTreeMap;
use std::mem;
use ws_lines::GivenList;
use ws_run::Reason;

/// What a replay changed: the tuples that came and went, by names and in order; and each other update whose status or writes
/// changed.
#[derive(Drop)]
pub struct Replayed {
    pub came: TupleList,
    pub went: TupleList,
    pub again: AgainList,
}

/// An update that a replay changed: its number, and its status before and after.
#[derive(Clone, Copy)]
pub struct Again {
    pub number: u32,
    pub was: Status,
    pub is: Status,
}

/// Updates that a replay changed, by number.
pub type AgainList = List<Again>;

impl State {
    /// Undoes these updates: their lines and answers do not count any more. If they are the latest update alone, its writes are
    /// taken back; else all lines that count are replayed.
    #[tactic(auto, using(crate::proofs::Returning::latest_taken_back, crate::proofs::Returning::another_taken_back))]
    pub(crate) fn undo(&mut self, alloc: Global, numbers: &NumberList) -> Result<Told, Memory>
        ensures fold { OnOk result (what_stood self.new ≡ what_stood self.old) }
        ensures reason { IfOk result (λ told. told.reason ≡ None) }
        ensures undone { OnOk result (TakesBack numbers.now.items self.old self.new) }
    {
        let waiting = self.world.waiting.len();
        match take_latest(&mut self.latest, numbers, waiting, self.redeclared) {
            Some(latest) => {
                let told = self.undo_latest(alloc, numbers, latest)?;
                Ok(told)
            }
            None => {
                let told = self.recount(alloc, numbers, true)?;
                Ok(told)
            }
        }
    }

    // Takes back what the latest update did; `numbers` names this update alone.
    fn undo_latest(
        &mut self,
        alloc: Global,
        numbers: &NumberList,
        latest: Latest,
    ) -> Result<Told, Memory>
        ensures fold { OnOk result (what_stood self.new ≡ what_stood self.old) }
        ensures reason { IfOk result (λ told. told.reason ≡ None) }
        ensures back { OnOk result (IsBackAt latest.world (what_stands self.old.world)
            (what_stands self.new.world)) }
    {
        keep_counted(alloc, &mut self.counted, &self.held, &self.events)?;
        let before = visible_of(alloc, &self.world.ground)?;
        let Latest { place, world, .. } = latest;
        self.replays = self.replays.wrapping_add(1);
        set_undone(&self.places, &mut self.held, numbers, true);
        wait_no_more(alloc, &mut self.world.waiting, place);
        self.world.back_to(alloc, world)?;
        let told = self.told_since(alloc, &before, AgainList::new(alloc))?;
        Ok(told)
    }

    /// Undoes these updates or redoes them: their lines and answers do not count any more, or count again.
    pub(crate) fn recount(
        &mut self,
        alloc: Global,
        numbers: &NumberList,
        is_undone: bool,
    ) -> Result<Told, Memory>
        ensures fold { OnOk result (what_stood self.new ≡ what_stood self.old) }
        ensures reason { IfOk result (λ told. told.reason ≡ None) }
    {
        let before = self.before(alloc)?;
        set_undone(&self.places, &mut self.held, numbers, is_undone);
        let told = self.replay_and_tell(alloc, before, numbers)?;
        Ok(told)
    }

    /// From now on, the answers that these updates had up to here do not count.
    pub(crate) fn forget(&mut self, alloc: Global, numbers: &NumberList) -> Result<Told, Memory>
        ensures fold { OnOk result (what_stood self.new ≡ what_stood self.old) }
        ensures reason { IfOk result (λ told. told.reason ≡ None) }
    {
        let before = self.before(alloc)?;
        forget_all(
            alloc,
            &self.places,
            &mut self.events,
            &mut self.held,
            numbers,
        );
        let told = self.replay_and_tell(alloc, before, numbers)?;
        Ok(told)
    }

    // What a replay is to be compared with. Which lines counted before it is kept.
    fn before(&mut self, alloc: Global) -> Result<Before, Memory>
        ensures fold { what_stood self.new ≡ what_stood self.old }
    {
        keep_counted(alloc, &mut self.counted, &self.held, &self.events)?;
        let statuses = self.statuses(alloc)?;
        let visible = visible_of(alloc, &self.world.ground)?;
        let order = mem::replace(&mut self.world.order, StandingList::new(alloc));
        Ok(Before {
            statuses,
            visible,
            order,
        })
    }

    fn replay_and_tell(
        &mut self,
        alloc: Global,
        before: Before,
        numbers: &NumberList,
    ) -> Result<Told, Memory>
        ensures fold { OnOk result (what_stood self.new ≡ what_stood self.old) }
        ensures reason { IfOk result (λ told. told.reason ≡ None) }
    {
        self.replay(alloc)?;
        let again = self.changed(alloc, &before, numbers)?;
        let told = self.told_since(alloc, &before.visible, again)?;
        Ok(told)
    }

    // What came and went since `before`, with the other updates that changed.
    fn told_since(&self, alloc: Global, before: &Visible, again: AgainList) -> Result<Told, Memory>
        ensures reason { IfOk result (λ told. told.reason ≡ None) }
    {
        let after = visible_of(alloc, &self.world.ground)?;
        let came = came_between(alloc, before, &after)?;
        let went = came_between(alloc, &after, before)?;
        Ok(Told {
            status: None,
            reason: None,
            replayed: Some(Replayed { came, went, again }),
        })
    }

    /// Runs all lines that count again, from what stood at the last fold.
    pub(crate) fn replay(&mut self, alloc: Global) -> Result<(), Memory>
        ensures fold { OnOk result (what_stood self.new ≡ what_stood self.old) }
    {
        self.replays = self.replays.wrapping_add(1);
        self.restart(alloc)?;
        let events = mem::replace(&mut self.events, Vec::new(alloc));
        for event in &events {
            self.replay_one(alloc, event)?;
        }
        self.events = events;
        Ok(())
    }

    fn replay_one(&mut self, alloc: Global, event: &Event) -> Result<(), Memory>
        ensures fold { OnOk result (what_stood self.new ≡ what_stood self.old) }
    {
        if event.is_forgotten || self.is_undone_at(place_in(&event.said)) {
            return Ok(());
        }
        do_again(
            alloc,
            &self.mappings,
            &mut self.held,
            &mut self.world,
            &event.said,
        )?;
        Ok(())
    }

    // Goes back to what stood at the last fold, with what waited then.
    #[tactic(auto, using(crate::proofs::Staying::stood_at_start))]
    fn restart(&mut self, alloc: Global) -> Result<(), Memory>
        ensures fold { OnOk result (what_stood self.new ≡ what_stood self.old) }
    {
        self.world.ground.back_to(ws_run::Mark {
            last: 0,
            names: self.first_names,
            trail: 0,
        })?;
        self.world.in_force = self.first_in_force.copy(alloc)?;
        self.world.gone = List::new(alloc);
        self.redeclared = false;
        keep(&mut self.latest, None);
        renew(&mut self.world.order, StandingList::new(alloc));
        let waiting = first_waiting(alloc, &self.held)?;
        renew(&mut self.world.waiting, waiting);
        Ok(())
    }

    // The other updates whose status or writes changed.
    fn changed(
        &self,
        alloc: Global,
        before: &Before,
        numbers: &NumberList,
    ) -> Result<AgainList, Memory> {
        let statuses = self.statuses(alloc)?;
        let was = by_held(alloc, &before.order, self.held.len())?;
        let is = by_held(alloc, &self.world.order, self.held.len())?;
        let mut again = AgainList::new(alloc);
        for (place, held) in self.held.iter().enumerate() {
            let one = Again {
                number: held.update.number,
                was: status_in(&before.statuses, place),
                is: status_in(&statuses, place),
            };
            let is_other = one.was != one.is || !same_writes(&was, &is, place);
            if is_other && !is_among(numbers, one.number) {
                again.push(one)?;
            }
        }
        Ok(again)
    }

    // The status of each held update, by place.
    fn statuses(&self, alloc: Global) -> Result<Vec<Status>, Memory> {
        let mut statuses = Vec::new(alloc);
        for held in &self.held {
            statuses.push(if held.is_undone {
                Status::Undone
            } else {
                Status::GivenUp
            })?;
        }
        for standing in self.world.order.as_slice() {
            if let Some(status) = statuses.get_mut(standing.held) {
                *status = Status::Stands;
            }
        }
        for waiting in self.world.waiting.as_slice() {
            if let Some(status) = statuses.get_mut(waiting.held) {
                *status = Status::Waits;
            }
        }
        Ok(statuses)
    }
}

// Runs a line again, over what stands now.
fn do_again(
    alloc: Global,
    declared: &MappingList,
    held: &mut HeldList,
    world: &mut World,
    said: &Said,
) -> Result<Option<Reason>, Memory>
    ensures goes_on { OnOk result (GoesOn world.old world.new) }
{
    match said {
        Said::Update(place) => {
            world.run_again(alloc, declared, held, *place, GivenList::new(alloc))
        }
        Said::Answer(place, given) => world.take_answer(alloc, declared, held, *place, given),
        Said::Go(place) => world.retry(alloc, declared, held, *place),
    }
}

// Marks these updates as undone, or as not undone.
fn set_undone(
    places: &BTreeMap<u32, usize>,
    held: &mut HeldList,
    numbers: &NumberList,
    is_undone: bool,
) {
    for number in numbers.as_slice() {
        if let Some(place) = places.get(number) {
            if let Some(held) = held.get_mut(*place) {
                held.is_undone = is_undone;
            }
        }
    }
}

// The answers of these updates do not count any more.
fn forget_all(
    alloc: Global,
    places: &BTreeMap<u32, usize>,
    events: &mut Vec<Event>,
    held: &mut HeldList,
    numbers: &NumberList,
) {
    for number in numbers.as_slice() {
        if let Some(place) = places.get(number) {
            forget_answers(alloc, events, held, *place);
        }
    }
}

fn forget_answers(alloc: Global, events: &mut Vec<Event>, held: &mut HeldList, place: usize) {
    for event in events.iter_mut() {
        if answers_to(&event.said, place) {
            event.is_forgotten = true;
        }
    }
    if let Some(held) = held.get_mut(place) {
        if held.first.is_some() {
            held.first = Some(GivenList::new(alloc));
        }
    }
}

// The held updates that waited at the last fold.
fn first_waiting(alloc: Global, held: &HeldList) -> Result<WaitingList, Memory> {
    let mut waiting = WaitingList::new(alloc);
    for (place, held) in held.iter().enumerate() {
        if held.is_undone {
            continue;
        }
        if let Some(first) = &held.first {
            let answers = first.copy(alloc)?;
            waiting.push(Waiting {
                held: place,
                answers,
            })?;
        }
    }
    Ok(waiting)
}

fn place_in(said: &Said) -> usize {
    match said {
        Said::Update(place) => *place,
        Said::Answer(place, _) => *place,
        Said::Go(place) => *place,
    }
}

fn answers_to(said: &Said, place: usize) -> bool {
    match said {
        Said::Update(_) => false,
        Said::Answer(answered, _) => *answered == place,
        Said::Go(answered) => *answered == place,
    }
}

fn is_among(numbers: &NumberList, number: u32) -> bool {
    numbers.as_slice().iter().any(|other| *other == number)
}
