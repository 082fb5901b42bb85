//! Points: earlier states, to go back to after lines that were only tried.
ghost use Rattle.std.specs.Prelude.{◌≡◌, take, OnOk, IfOk};
ghost use Rattle.ws_state.specs.Stands.{what_stands, what_stood};
ghost use Rattle.ws_state.specs.Returns.{IsPlaceIn, IsPointOf, IsBackAt, LeadsBack, RunsAddUp};

use crate::counted::count_again;
use crate::latest::keep;
use crate::states::{HeldList, State};
use crate::worlds::{WaitingList, World, renew};
use base_types::{List, MappingList, Memory, TryCopy};
use std::alloc::Global;
use std::collections::BTreeMap;
use std::mem;
use ws_lines::TableList;
use ws_run::Mark;

/// What a state goes back to. It serves only the state that gave it, and only until that state gives another point or goes back
/// to one.
#[derive(Drop)]
pub struct Point {
    tables: TableList,
    mappings: MappingList,
    last: u32,
    pub(crate) replays: u32,
    said: SaidBefore,
    waiting: WaitingList,
    pub(crate) world: WorldBefore,
}

// How many updates were held and lines said, and how many places each update had that waited.
#[derive(Drop)]
struct SaidBefore {
    held: usize,
    events: usize,
    places: Vec<usize>,
}

// What stood.
#[derive(Drop)]
pub(crate) struct WorldBefore {
    pub ground: Mark,
    pub in_force: List<u16>,
    pub gone: List<u16>,
    pub order: usize,
}

impl State {
    /// The state as it is now, as a point to go back to. Its cost grows with the updates that wait, and not with those that
    /// stand.
    pub fn point(&mut self, alloc: Global) -> Result<Point, Memory>
        ensures place { IfOk result (λ point. IsPointOf self.new point) }
        ensures stands { what_stands self.new.world ≡ what_stands self.old.world }
        ensures fold { what_stood self.new ≡ what_stood self.old }
    {
        drop(mem::replace(&mut self.counted, None));
        Ok(Point {
            tables: self.tables.copy(alloc)?,
            mappings: self.mappings.copy(alloc)?,
            last: self.last,
            replays: self.replays,
            said: self.said_now(alloc)?,
            waiting: self.world.waiting.copy(alloc)?,
            world: self.world.kept(alloc)?,
        })
    }

    fn said_now(&self, alloc: Global) -> Result<SaidBefore, Memory> {
        let mut places = Vec::new(alloc);
        for waiting in self.world.waiting.as_slice() {
            places.push(count_places(&self.held, waiting.held))?;
        }
        Ok(SaidBefore {
            held: self.held.len(),
            events: self.events.len(),
            places,
        })
    }

    /// Takes back all that was done since the point. If lines only ran, the runs are taken back; if lines were replayed, they are
    /// replayed again. After a refusal, the state is of no use.
    #[tactic(auto, using(crate::proofs::Returning::led_back, crate::proofs::Returning::replayed_since))]
    pub fn back_to(&mut self, alloc: Global, point: Point) -> Result<(), Memory>
        ensures back { OnOk result (LeadsBack point self.old self.new) }
        ensures fold { OnOk result (what_stood self.new ≡ what_stood self.old) }
    {
        let Point {
            tables,
            mappings,
            last,
            replays,
            said,
            waiting,
            world,
        } = point;
        keep(&mut self.latest, None);
        renew(&mut self.tables, tables);
        renew(&mut self.mappings, mappings);
        self.last = last;
        let counted = mem::replace(&mut self.counted, None);
        count_again(alloc, &mut self.held, &mut self.events, counted);
        self.events.truncate(said.events);
        held_back_to(&mut self.held, &mut self.places, said.held);
        places_back_to(alloc, &mut self.held, &waiting, &said.places);
        if self.replays == replays {
            renew(&mut self.world.waiting, waiting);
            self.world.back_to(alloc, world)?;
            return Ok(());
        }
        drop((waiting, world));
        self.replay(alloc)?;
        Ok(())
    }
}

/// If the state goes on by runs, and then by runs again, it has gone on by runs. So all lines since a point are taken back if
/// none of them replays.
pub fn runs_add_up()
    ensures { RunsAddUp }
{}

fn held_back_to(held: &mut HeldList, places: &mut BTreeMap<u32, usize>, count: usize) {
    for _ in count..held.len() {
        if let Some(held) = held.pop() {
            places.remove(&held.update.number);
        }
    }
}

// Gives the updates that waited as many places as then. The others have as many, since they did not run.
fn places_back_to(alloc: Global, held: &mut HeldList, waiting: &WaitingList, places: &[usize]) {
    for (waiting, count) in waiting.as_slice().iter().zip(places) {
        if let Some(held) = held.get_mut(waiting.held) {
            shorten(alloc, &mut held.places, *count);
        }
    }
}

// The number of places of the update held at this place.
fn count_places(held: &HeldList, place: usize) -> usize {
    match held.get(place) {
        Some(held) => held.places.len(),
        None => 0,
    }
}

impl World {
    /// What stands now, to go back to.
    pub fn kept(&self, alloc: Global) -> Result<WorldBefore, Memory>
        ensures place { IfOk result (λ before. IsPlaceIn self.now before) }
    {
        let in_force = self.in_force.copy(alloc)?;
        let gone = self.gone.copy(alloc)?;
        Ok(WorldBefore {
            ground: self.ground.mark(),
            in_force,
            gone,
            order: self.order.len(),
        })
    }

    /// Takes back what ran since `before` was kept, except what waits.
    pub fn back_to(&mut self, alloc: Global, before: WorldBefore) -> Result<(), Memory>
        ensures back { OnOk result
            (IsBackAt before (what_stands self.old) (what_stands self.new)) }
    {
        self.ground.back_to(before.ground)?;
        let WorldBefore {
            in_force,
            gone,
            order,
            ..
        } = before;
        self.in_force = in_force;
        self.gone = gone;
        shorten(alloc, &mut self.order, order);
        Ok(())
    }
}

/// Keeps the first `count` items.
pub(crate) fn shorten<T: Drop>(alloc: Global, list: &mut List<T>, count: usize)
    ensures first { list.new.items ≡ take count list.old.items }
{
    let mut kept = mem::replace(list, List::new(alloc)).into_vec();
    kept.truncate(count);
    *list = List::from_vec(kept);
}
