//! Runs of updates over what stands.
ghost use Rattle.std.specs.Prelude.{◌≡◌, OnOk, IfOk, IfSome};
ghost use Rattle.ws_state.specs.Stands.{what_stands, HasRun, IsTakenBack, GoesOn};

use crate::outcomes::{Ran, Tried, first_of};
use crate::states::HeldList;
use crate::turns::{Turn, run_turn};
use crate::worlds::{
    Standing, Waiting, WaitingList, World, drop_mapping, gives_up, put_in_force, wait_among,
    wait_no_more,
};
use base_types::{List, MappingList, Memory, TryCopy};
use std::alloc::Global;
use std::mem;
use ws_lines::{Deed, Given, GivenList};
use ws_names::Places;
use ws_run::{Mark, Reason};

impl World {
    /// Runs the update at this place with these answers, and lets it stand or wait. Returns the reason if it waits.
    #[tactic(auto, using(crate::proofs::Staying::looked, crate::proofs::Staying::same_on, crate::proofs::Staying::run_on))]
    pub fn run_again(
        &mut self,
        alloc: Global,
        declared: &MappingList,
        held: &mut HeldList,
        place: usize,
        answers: GivenList,
    ) -> Result<Option<Reason>, Memory>
        ensures goes_on { OnOk result (GoesOn self.old self.new) }
        ensures waits { IfOk result (λ reason. IfSome reason (λ _.
            what_stands self.new ≡ what_stands self.old)) }
    {
        let mark = self.ground.mark();
        let Tried { ran, places, .. } = self.run(alloc, declared, held, place, &answers)?;
        keep_places(held, place, places);
        match ran {
            Ran::Done(standing) => {
                drop(answers);
                self.let_stand(alloc, held, standing)?;
                Ok(None)
            }
            Ran::Left(reason) => match self.let_wait(alloc, held, mark, place, answers) {
                Ok(()) => Ok(Some(reason)),
                Err(memory) => {
                    drop(reason);
                    Err(memory)
                }
            },
        }
    }

    // Lets the update stand, with the mapping that it puts in force or takes away. It does not wait any more.
    #[tactic(auto, using(crate::proofs::Staying::more_stands))]
    fn let_stand(
        &mut self,
        alloc: Global,
        held: &HeldList,
        standing: Standing,
    ) -> Result<(), Memory>
        ensures goes_on { OnOk result (GoesOn self.old self.new) }
    {
        let place = standing.held;
        self.order.push(standing)?;
        enforce(alloc, held, place, &mut self.in_force, &mut self.gone)?;
        wait_no_more(alloc, &mut self.waiting, place);
        sweep(alloc, held, &self.in_force, &self.gone, &mut self.waiting);
        Ok(())
    }

    // Takes back what the update did, and lets it wait.
    fn let_wait(
        &mut self,
        alloc: Global,
        held: &HeldList,
        mark: Mark,
        place: usize,
        answers: GivenList,
    ) -> Result<(), Memory>
        ensures back { OnOk result (IsTakenBack mark.trail self.old self.new) }
    {
        self.ground.back_to(mark)?;
        wait_among(&mut self.waiting, place, answers)?;
        sweep(alloc, held, &self.in_force, &self.gone, &mut self.waiting);
        Ok(())
    }

    /// Runs the update only to look: what stands and the update's table stay as they are.
    #[tactic(auto, using(crate::proofs::Staying::looked))]
    pub fn look(
        &mut self,
        alloc: Global,
        declared: &MappingList,
        held: &HeldList,
        place: usize,
        answers: &GivenList,
    ) -> Result<Tried, Memory>
        ensures stands { OnOk result (what_stands self.new ≡ what_stands self.old) }
        ensures waiting { OnOk result (self.new.waiting.items ≡ self.old.waiting.items) }
    {
        let mark = self.ground.mark();
        let tried = self.run(alloc, declared, held, place, answers)?;
        self.ground.back_to(mark)?;
        Ok(tried)
    }

    /// Gives an update that waits an answer, if it asks that question, in place of the answers that did not fit, and runs it
    /// again.
    #[tactic(auto, using(crate::proofs::Staying::same_on, crate::proofs::Staying::same_then_on))]
    pub fn take_answer(
        &mut self,
        alloc: Global,
        declared: &MappingList,
        held: &mut HeldList,
        place: usize,
        given: &Given,
    ) -> Result<Option<Reason>, Memory>
        ensures goes_on { OnOk result (GoesOn self.old self.new) }
        ensures waits { IfOk result (λ reason. IfSome reason (λ _.
            what_stands self.new ≡ what_stands self.old)) }
    {
        let Some(answers) = self.answers_of(alloc, place)? else {
            return Ok(None);
        };
        let Tried { ran, taken, .. } = self.look(alloc, declared, held, place, &answers)?;
        let reason = ran.reason();
        if !asks_it(&reason, given) {
            return Ok(reason);
        }
        drop(reason);
        let answers = with_one(alloc, first_of(answers, taken), given)?;
        let reason = self.run_again(alloc, declared, held, place, answers)?;
        Ok(reason)
    }

    /// Runs a waiting update again, with the answers that fit.
    #[tactic(auto, using(crate::proofs::Staying::same_on, crate::proofs::Staying::same_then_on))]
    pub fn retry(
        &mut self,
        alloc: Global,
        declared: &MappingList,
        held: &mut HeldList,
        place: usize,
    ) -> Result<Option<Reason>, Memory>
        ensures goes_on { OnOk result (GoesOn self.old self.new) }
        ensures waits { IfOk result (λ reason. IfSome reason (λ _.
            what_stands self.new ≡ what_stands self.old)) }
    {
        let Some(answers) = self.answers_of(alloc, place)? else {
            return Ok(None);
        };
        let taken = self.look(alloc, declared, held, place, &answers)?.taken;
        let reason = self.run_again(alloc, declared, held, place, first_of(answers, taken))?;
        Ok(reason)
    }

    // Runs the update at this place over what stands.
    #[tactic(auto, using(crate::proofs::Staying::none_run))]
    fn run(
        &mut self,
        alloc: Global,
        declared: &MappingList,
        held: &HeldList,
        place: usize,
        answers: &GivenList,
    ) -> Result<Tried, Memory>
        ensures ran { HasRun self.old self.new }
    {
        let Some(held) = held.get(place) else {
            return Err(Memory);
        };
        let places = held.places.copy(alloc)?;
        let turn = Turn {
            place,
            update: &held.update,
            answers,
        };
        run_turn(alloc, declared, self, turn, places)
    }
}

// Gives up the updates that wait for a mapping that is gone, or to put a mapping in force that is in force already.
fn sweep(
    alloc: Global,
    held: &HeldList,
    in_force: &List<u16>,
    gone: &List<u16>,
    list: &mut WaitingList,
) {
    let mut kept = mem::replace(list, WaitingList::new(alloc)).into_vec();
    kept.retain(|waiting| !is_given_up(held, in_force, gone, waiting));
    *list = WaitingList::from_vec(kept);
}

fn is_given_up(held: &HeldList, in_force: &List<u16>, gone: &List<u16>, waiting: &Waiting) -> bool {
    match held.get(waiting.held) {
        Some(held) => gives_up(in_force, gone, &held.update.deed),
        None => false,
    }
}

// The answers with one more.
fn with_one(alloc: Global, answers: GivenList, given: &Given) -> Result<GivenList, Memory> {
    let mut answers = answers;
    answers.push(given.copy(alloc)?)?;
    Ok(answers)
}

// Puts the mapping of the update at this place in force, or takes it away.
fn enforce(
    alloc: Global,
    held: &HeldList,
    place: usize,
    in_force: &mut List<u16>,
    gone: &mut List<u16>,
) -> Result<(), Memory> {
    let Some(held) = held.get(place) else {
        return Ok(());
    };
    match &held.update.deed {
        Deed::Force(mapping) => put_in_force(in_force, *mapping),
        Deed::Drop(mapping) => drop_mapping(alloc, in_force, gone, *mapping),
        _ => Ok(()),
    }
}

// Keeps the table of the update at this place.
fn keep_places(held: &mut HeldList, place: usize, places: Places) {
    if let Some(held) = held.get_mut(place) {
        drop(mem::replace(&mut held.places, places));
    }
}

// Whether the update asks the question that the answer was given to.
fn asks_it(reason: &Option<Reason>, given: &Given) -> bool {
    match reason {
        Some(Reason::Asks(question)) => {
            question.asked.source == given.asked.source
                && question.asked.tuples == given.asked.tuples
        }
        _ => false,
    }
}
