//! The refusals under `--only`, and without `--cascade`.

use base_types::Tuple;
use def_memory::Memory;
use std::alloc::Global;
use std::collections::BTreeSet;
use ws_command::Bounds;
use ws_fault::Refusal;
use ws_hint::known_fact;
use ws_print::Lines;
use ws_question::{AskedNow, count_text, fact_text, question_line};
use ws_report::{MANY, moved_row, refuse, refuse_with};
use ws_space::Space;
use ws_state::{Effect, Moved};
use ws_written::{Fact, Line, NewFact, Update};

/// The greatest number of tuples that the refusal under `--only` lists.
const TOLD: usize = 10;

/// The tuples that a line names, by names: the tuples that go, and the tuples that come.
#[derive(Drop)]
struct Named {
    going: BTreeSet<Tuple>,
    coming: BTreeSet<Tuple>,
}

fn put(set: &mut BTreeSet<Tuple>, tuple: Tuple) -> Result<(), Memory> {
    match set.insert(tuple) {
        Ok(_) => Ok(()),
        Err(_) => Err(Memory),
    }
}

impl Named {
    fn add_going(&mut self, alloc: Global, space: &Space, fact: &Fact) -> Result<(), Memory> {
        put(&mut self.going, space.tuple(alloc, fact)?)
    }

    fn add_coming(&mut self, alloc: Global, space: &Space, fact: &NewFact) -> Result<(), Memory> {
        match known_fact(alloc, fact)? {
            Some(known) => put(&mut self.coming, space.tuple(alloc, &known)?),
            None => Ok(()),
        }
    }

    fn add_all_going(
        &mut self,
        alloc: Global,
        space: &Space,
        facts: &[Fact],
    ) -> Result<(), Memory> {
        for fact in facts {
            self.add_going(alloc, space, fact)?;
        }
        Ok(())
    }

    fn add_all_coming(
        &mut self,
        alloc: Global,
        space: &Space,
        facts: &[NewFact],
    ) -> Result<(), Memory> {
        for fact in facts {
            self.add_coming(alloc, space, fact)?;
        }
        Ok(())
    }

    fn has(&self, tuple: &Tuple) -> bool {
        self.going.contains(tuple) || self.coming.contains(tuple)
    }
}

fn named_by(alloc: Global, space: &Space, line: &Line) -> Result<Named, Memory> {
    let mut named = Named {
        going: BTreeSet::new(alloc),
        coming: BTreeSet::new(alloc),
    };
    let Line::Update(numbered) = line else {
        return Ok(named);
    };
    match &numbered.update {
        Update::Insert(facts) => named.add_all_coming(alloc, space, facts.as_slice())?,
        Update::Delete(facts) => named.add_all_going(alloc, space, facts.as_slice())?,
        Update::Change(old, new) => {
            named.add_going(alloc, space, old)?;
            named.add_coming(alloc, space, new)?;
        }
        _ => {}
    }
    Ok(named)
}

// Whether the line takes away tuples that it names.
fn takes_away(line: &Line) -> bool {
    match line {
        Line::Update(numbered) => match &numbered.update {
            Update::Delete(_) | Update::Change(_, _) => true,
            _ => false,
        },
        _ => false,
    }
}

/// The refusal of an update that would ask, under `--only`.
pub(crate) fn refuse_asking<T: Drop>(
    alloc: Global,
    space: &Space,
    asked: &AskedNow,
) -> Result<T, Refusal> {
    let question = question_line(alloc, space, asked)?;
    let words = format!(in alloc; "it would ask: {question}")?;
    refuse(alloc, words.as_str(), "without --only it asks")
}

/// Refuses the line if its effect goes beyond the bounds.
pub(crate) fn check_bounds(
    alloc: Global,
    space: &Space,
    line: &Line,
    bounds: &Bounds,
    effect: &Effect,
) -> Result<(), Refusal> {
    let named = named_by(alloc, space, line)?;
    if bounds.only {
        check_only(alloc, space, &named, effect)?;
    }
    if !bounds.cascade && takes_away(line) {
        check_along(alloc, space, &named, effect)?;
    }
    Ok(())
}

// What a line changes beyond its bounds: the number of tuples, and lines for the first of them.
#[derive(Drop)]
struct Excess {
    count: usize,
    lines: Lines,
}

impl Excess {
    fn none(alloc: Global) -> Excess {
        Excess {
            count: 0,
            lines: Lines::new(alloc),
        }
    }

    // Counts a tuple, and lists it.
    fn add(&mut self, alloc: Global, space: &Space, moved: &Moved) {
        self.count = self.count.saturating_add(1);
        if self.lines.len() < TOLD {
            self.lines.made(fact_text(alloc, space, &moved.tuple));
        }
    }

    // Counts a tuple, and lists it as one that goes.
    fn add_row(&mut self, alloc: Global, space: &Space, moved: &Moved) {
        self.count = self.count.saturating_add(1);
        if self.lines.len() < MANY {
            self.lines.made(moved_row(alloc, space, "-", moved, true));
        }
    }
}

// Adds the tuples that go and are not named.
fn add_unnamed(alloc: Global, space: &Space, excess: &mut Excess, named: &Named, went: &[Moved]) {
    for moved in went {
        if !named.has(&moved.tuple) {
            excess.add(alloc, space, moved);
        }
    }
}

// Adds the tuples that come by a mapping.
fn add_made(alloc: Global, space: &Space, excess: &mut Excess, came: &[Moved]) {
    for moved in came {
        if moved.by.is_some() {
            excess.add(alloc, space, moved);
        }
    }
}

// Refuses the line if a tuple goes that is not named, or if one comes by a mapping.
fn check_only(alloc: Global, space: &Space, named: &Named, effect: &Effect) -> Result<(), Refusal> {
    let mut excess = Excess::none(alloc);
    add_unnamed(alloc, space, &mut excess, named, effect.went.as_slice());
    add_made(alloc, space, &mut excess, effect.came.as_slice());
    let Excess { count, lines } = excess;
    if count == 0 {
        return Ok(());
    }
    let count = count_text(alloc, count, "tuple")?;
    let words = format!(in alloc; "more than what is named would change: {count}")?;
    refuse_with(
        alloc,
        words.as_str(),
        "try it, or leave --only",
        lines.done()?,
    )
}

// Refuses the line if a tuple goes that is not named to go.
fn check_along(
    alloc: Global,
    space: &Space,
    named: &Named,
    effect: &Effect,
) -> Result<(), Refusal> {
    let Excess { count, lines } = gone_along(alloc, space, named, effect.went.as_slice());
    if count == 0 {
        return Ok(());
    }
    let mut lines = lines;
    if MANY < count {
        let more = count.saturating_sub(MANY);
        lines.made(format!(in alloc; ".. and {more} more"));
    }
    let count = count_text(alloc, count, "tuple")?;
    let words = format!(in alloc; "{count} would go along that you do not name")?;
    refuse_with(
        alloc,
        words.as_str(),
        "to let them go: --cascade",
        lines.done()?,
    )
}

// The tuples that go and are not named to go.
fn gone_along(alloc: Global, space: &Space, named: &Named, went: &[Moved]) -> Excess {
    let mut excess = Excess::none(alloc);
    for moved in went {
        if !named.going.contains(&moved.tuple) {
            excess.add_row(alloc, space, moved);
        }
    }
    excess
}
