//! The state, and what is held of each update of the log.
ghost use Rattle.std.specs.Prelude.{◌≡◌, None, OnOk, IfOk, IfSome};
ghost use Rattle.ws_state.specs.Stands.{what_stands, what_stood, HasGoneOn, IfRuns, IfSays, IfUndoes};
ghost use Rattle.ws_state.specs.Returns.{WasSaid, TakesBack};

use crate::counted::Counted;
use crate::latest::{Latest, keep};
use crate::outcomes::Tried;
use crate::replays::Replayed;
use crate::worlds::{Status, World};
use base_types::{List, Mapping, MappingList, Memory};
use set_facts::IndexedFacts;
use std::alloc::Global;
use std::collections::BTreeMap;
use ws_lines::{Given, GivenList, Line, Table, TableList, Update};
use ws_names::{Names, Places};
use ws_run::{Ground, Reason};

/// What is held of an update: whether it is undone, its table of places, and its answers at the last fold, if it waited then.
#[derive(Drop)]
pub struct Held {
    pub update: Update,
    pub is_undone: bool,
    pub places: Places,
    pub first: Option<GivenList>,
}

/// Held updates: first the updates that waited at the last fold, then the updates of the log.
pub type HeldList = Vec<Held>;

/// What a line of the log did, if a replay runs it again. Updates are given by their places among the held updates.
#[derive(Drop)]
pub(crate) enum Said {
    Update(usize),
    Answer(usize, Given),
    Go(usize),
}

/// A line that a replay runs again, and whether its answer was taken back.
#[derive(Drop)]
pub(crate) struct Event {
    pub said: Said,
    pub is_forgotten: bool,
}

/// A place in the log: how much was written and how many updates stood there.
#[derive(Clone, Copy)]
pub struct Mark {
    pub(crate) last: u32,
    pub(crate) trail: usize,
    pub(crate) order: usize,
}

/// The report of a line: the status of its update; the reason if it waits; and what an undo or redo changed.
#[derive(Drop)]
pub struct Told {
    pub status: Option<Status>,
    pub reason: Option<Reason>,
    pub replayed: Option<Replayed>,
}

/// The state that a log stands for. `latest` keeps what stood before the latest update, until another line runs. `redeclared`
/// says whether a mapping was declared once more since the last replay, so that a replay may give something else than what
/// stands. `counted` keeps which lines counted before the first undo, redo or forgetting since the latest point.
pub struct State {
    pub(crate) tables: TableList,
    pub(crate) mappings: MappingList,
    pub(crate) held: HeldList,
    pub(crate) places: BTreeMap<u32, usize>,
    pub(crate) events: Vec<Event>,
    pub(crate) first_in_force: List<u16>,
    pub(crate) first_names: usize,
    pub(crate) replays: u32,
    pub(crate) latest: Option<Latest>,
    pub(crate) redeclared: bool,
    pub(crate) counted: Option<Counted>,
    pub(crate) last: u32,
    pub(crate) world: World,
}

impl Drop for State {
    fn drop(self) {
        let State {
            tables: _,
            mappings: _,
            held: _,
            places: _,
            events: _,
            first_in_force: _,
            first_names: _,
            replays: _,
            latest,
            redeclared: _,
            counted: _,
            last: _,
            world,
        } = self;
        drop(latest);
        drop(world);
    }
}

impl State {
    /// The state of a workspace without any line.
    pub fn new(alloc: Global) -> State {
        let ground = Ground::new(alloc, IndexedFacts::new(alloc), Names::new(alloc));
        State {
            tables: TableList::new(alloc),
            mappings: MappingList::new(alloc),
            held: Vec::new(alloc),
            places: BTreeMap::new(alloc),
            events: Vec::new(alloc),
            first_in_force: List::new(alloc),
            first_names: 0,
            replays: 0,
            latest: None,
            redeclared: false,
            counted: None,
            last: 0,
            world: World::new(alloc, ground, List::new(alloc)),
        }
    }

    /// Does what the line says, and reports it. After a refusal, the state is of no use.
    #[tactic(auto, using(crate::proofs::Staying::gone_on, crate::proofs::Staying::same_on, crate::proofs::Telling::none_told, crate::proofs::Telling::fold_told, crate::proofs::Telling::any_told))]
    pub fn take(&mut self, alloc: Global, line: Line) -> Result<Told, Memory>
        ensures fold { OnOk result (what_stood self.new ≡ what_stood self.old) }
        ensures goes_on { OnOk result (IfRuns line (HasGoneOn self.old self.new)) }
        ensures waits { IfOk result (λ told. IfSome told.reason (λ _.
            what_stands self.new.world ≡ what_stands self.old.world)) }
        ensures said { OnOk result (IfSays line (λ n. WasSaid n self.old self.new)) }
        ensures undone { OnOk result (IfUndoes line (λ ns. TakesBack ns self.old self.new)) }
    {
        match line {
            Line::Update(update) => self.say(alloc, update),
            Line::Answer(number, given) => self.answer(alloc, number, given),
            Line::Go(number) => self.go(alloc, number),
            Line::Undo(numbers) => self.undo(alloc, &numbers),
            Line::Redo(numbers) => self.recount(alloc, &numbers, false),
            Line::Forget(numbers) => self.forget(alloc, &numbers),
            Line::Relation(table) => {
                declare_table(&mut self.tables, table)?;
                Ok(nothing_told())
            }
            Line::Mapping(mapping) => {
                self.redeclared = declare_mapping(&mut self.mappings, mapping)? || self.redeclared;
                keep(&mut self.latest, None);
                Ok(nothing_told())
            }
        }
    }

    // Says an update: it runs without answers.
    #[tactic(auto, using(crate::proofs::Telling::waits_told))]
    fn say(&mut self, alloc: Global, update: Update) -> Result<Told, Memory>
        ensures goes_on { OnOk result (HasGoneOn self.old self.new) }
        ensures waits { IfOk result (λ told. IfSome told.reason (λ _.
            what_stands self.new.world ≡ what_stands self.old.world)) }
        ensures said { OnOk result (WasSaid update.number self.old self.new) }
    {
        let number = update.number;
        self.last = self.last.max(number);
        let place = self.held.len();
        self.held.push(Held {
            update,
            is_undone: false,
            places: Places::new(alloc),
            first: None,
        })?;
        if self.places.insert(number, place).is_err() {
            return Err(Memory);
        }
        note(&mut self.events, Said::Update(place))?;
        let latest = self.world.latest(alloc, number, place)?;
        let answers = GivenList::new(alloc);
        let reason = self
            .world
            .run_again(alloc, &self.mappings, &mut self.held, place, answers)?;
        keep(&mut self.latest, Some(latest));
        Ok(self.told(place, reason))
    }

    // Gives an update that waits an answer.
    #[tactic(auto, using(crate::proofs::Telling::waits_told))]
    fn answer(&mut self, alloc: Global, number: u32, given: Given) -> Result<Told, Memory>
        ensures goes_on { OnOk result (HasGoneOn self.old self.new) }
        ensures waits { IfOk result (λ told. IfSome told.reason (λ _.
            what_stands self.new.world ≡ what_stands self.old.world)) }
    {
        let Some(place) = self.place_of(number) else {
            return Ok(nothing_told());
        };
        keep(&mut self.latest, None);
        let reason = self
            .world
            .take_answer(alloc, &self.mappings, &mut self.held, place, &given)?;
        match note(&mut self.events, Said::Answer(place, given)) {
            Ok(()) => Ok(self.told(place, reason)),
            Err(memory) => {
                drop(reason);
                Err(memory)
            }
        }
    }

    // Lets an update that waits try again.
    #[tactic(auto, using(crate::proofs::Telling::waits_told))]
    fn go(&mut self, alloc: Global, number: u32) -> Result<Told, Memory>
        ensures goes_on { OnOk result (HasGoneOn self.old self.new) }
        ensures waits { IfOk result (λ told. IfSome told.reason (λ _.
            what_stands self.new.world ≡ what_stands self.old.world)) }
    {
        let Some(place) = self.place_of(number) else {
            return Ok(nothing_told());
        };
        keep(&mut self.latest, None);
        note(&mut self.events, Said::Go(place))?;
        let reason = self
            .world
            .retry(alloc, &self.mappings, &mut self.held, place)?;
        Ok(self.told(place, reason))
    }

    // The report of the update held at this place.
    fn told(&self, place: usize, reason: Option<Reason>) -> Told
        ensures reason { result.reason ≡ reason }
    {
        Told {
            status: Some(self.status_at(place)),
            reason,
            replayed: None,
        }
    }

    /// The reason why the update with this number waits, over what stands now. None if it does not wait, or if nothing is in its
    /// way. The state stays as it is.
    pub fn ask(&mut self, alloc: Global, number: u32) -> Result<Option<Reason>, Memory>
        ensures stands { OnOk result (what_stands self.new.world ≡ what_stands self.old.world) }
        ensures waiting { OnOk result
            (self.new.world.waiting.items ≡ self.old.world.waiting.items) }
        ensures fold { OnOk result (what_stood self.new ≡ what_stood self.old) }
    {
        let Some(place) = self.place_of(number) else {
            return Ok(None);
        };
        let Some(answers) = self.world.answers_of(alloc, place)? else {
            return Ok(None);
        };
        let Tried { ran, .. } = self
            .world
            .look(alloc, &self.mappings, &self.held, place, &answers)?;
        Ok(ran.reason())
    }

    /// The place of the update with this number among the held updates.
    pub(crate) fn place_of(&self, number: u32) -> Option<usize> {
        self.places.get(&number).copied()
    }

    /// The status of the update with this number; None if there is none.
    pub fn status(&self, number: u32) -> Option<Status> {
        match self.place_of(number) {
            Some(place) => Some(self.status_at(place)),
            None => None,
        }
    }

    /// Whether the update at this place is undone.
    pub(crate) fn is_undone_at(&self, place: usize) -> bool {
        match self.held.get(place) {
            Some(held) => held.is_undone,
            None => false,
        }
    }

    /// The status of the update at this place.
    pub(crate) fn status_at(&self, place: usize) -> Status {
        if self.is_undone_at(place) {
            return Status::Undone;
        }
        if self.world.waiting_place(place).is_some() {
            return Status::Waits;
        }
        // Mostly the update is the last one, so the search begins there.
        let mut order = self.world.order.as_slice().iter().rev();
        if order.any(|standing| standing.held == place) {
            return Status::Stands;
        }
        Status::GivenUp
    }
}

// Notes a line that a replay runs again.
fn note(events: &mut Vec<Event>, said: Said) -> Result<(), Memory> {
    events.push(Event {
        said,
        is_forgotten: false,
    })?;
    Ok(())
}

// Declares a relation. It takes the place of one with the same name.
fn declare_table(tables: &mut TableList, table: Table) -> Result<(), Memory> {
    match table_among(tables, table.name.as_slice()) {
        Some(number) => put(tables, number as usize, table),
        None => tables.push(table)?,
    }
    Ok(())
}

// Declares a mapping. Returns whether it took the place of one with the same name.
fn declare_mapping(mappings: &mut MappingList, mapping: Mapping) -> Result<bool, Memory> {
    match mapping_among(mappings, mapping.name.as_slice()) {
        Some(number) => {
            put(mappings, number as usize, mapping);
            Ok(true)
        }
        None => {
            mappings.push(mapping)?;
            Ok(false)
        }
    }
}

pub(crate) fn table_among(tables: &TableList, name: &[u8]) -> Option<u16> {
    let mut tables = tables.as_slice().iter();
    let place = tables.position(|table| table.name.as_slice() == name)?;
    u16::try_from(place).ok()
}

pub(crate) fn mapping_among(mappings: &MappingList, name: &[u8]) -> Option<u16> {
    let mut mappings = mappings.as_slice().iter();
    let place = mappings.position(|mapping| mapping.name.as_slice() == name)?;
    u16::try_from(place).ok()
}

/// The count as the number of a relation or a mapping; the greatest number if it is greater.
pub(crate) fn small(count: usize) -> u16 {
    u16::try_from(count).unwrap_or(u16::MAX)
}

/// Puts the item in place of the one there, if there is one.
pub(crate) fn put<T: Drop>(list: &mut List<T>, place: usize, item: T) {
    if place < list.len() {
        list.put(place, item);
    }
}

/// An empty report.
pub(crate) fn nothing_told() -> Told
    ensures reason { result.reason ≡ None }
{
    Told {
        status: None,
        reason: None,
        replayed: None,
    }
}
