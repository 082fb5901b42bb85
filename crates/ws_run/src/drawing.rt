//! The names of the nulls that a step drew.
ghost use Rattle.std.specs.Prelude.{◌≡◌, ◌+◌, ◌-◌, List, OnOk};
ghost use Rattle.base_types.specs.Meanings.{null_of};
ghost use Rattle.chase_repair.specs.Bound.{bound_in};
ghost use Rattle.def_workspace.specs.Lines.{Given};
ghost use Rattle.ws_names.specs.Meanings.{cause_of};
ghost use Rattle.ws_run.specs.Drawing.{HasDrawnOne, drawn_for};
ghost use Rattle.ws_run.specs.DrawnMeanings.{HasNext, draw_all, draw_next};
ghost use Rattle.ws_run.specs.Meanings.{setting_of, thread_of};

use crate::settings::Setting;
use crate::threads::Thread;
use base_types::{Memory, Null, TryCopy, TupleList};
use chase_repair::image;
use chase_update::Attempt;
use std::alloc::Global;
use ws_lines::Source;
use ws_names::{Cause, Names, give};

/// Names the nulls that the last step drew; `before` is the number of nulls before that step. Each gets its name from the
/// mapping, its variable, and the image of the left side.
#[tactic(auto, using(crate::proofs::Naming::none_drawn))]
pub(crate) fn name_drawn(
    alloc: Global,
    setting: &Setting<'_>,
    names: &mut Names,
    thread: &mut Thread,
    program: &Attempt,
    before: u32,
) -> Result<(), Memory>
    ensures drawn { OnOk result ((gs : List Given) → thread_of names.new thread.new gs ≡
        drawn_for (setting_of setting.now) program.now.attempt.number
        (program.now.attempt.nulls - before) before (bound_in program.now.attempt.phase)
        (thread_of names.old thread.old gs)) }
    ensures ops { thread.new.ops ≡ thread.old.ops }
{
    if program.nulls() <= before {
        return Ok(());
    }
    let Some(bound) = program.bound() else {
        return Ok(());
    };
    let Some(mapping) = setting.in_force.mappings().get(bound.mapping as usize) else {
        return Ok(());
    };
    let image = image(alloc, bound.values, &mapping.left)?;
    let image = names.tuples(alloc, image.as_slice())?;
    let mut drawn = Drawn {
        number: setting.number,
        op: program.number(),
        source: setting.source(bound.mapping),
        variable: mapping.universal,
        image,
    };
    name_all(alloc, names, thread, &mut drawn, before, program.nulls())
}

// The nulls that a mapping draws in an op of an update, for an image of its left side, from this variable on.
#[derive(Drop)]
struct Drawn {
    number: u32,
    op: u32,
    source: Source,
    variable: u16,
    image: TupleList,
}

// Names the nulls of the op at the places after `before`, up to `nulls`.
#[tactic(auto, using(crate::proofs::Naming::drawn_on, crate::proofs::Naming::drawn_all))]
fn name_all(
    alloc: Global,
    names: &mut Names,
    thread: &mut Thread,
    drawn: &mut Drawn,
    before: u32,
    nulls: u32,
) -> Result<(), Memory>
    ensures drawn { OnOk result ((gs : List Given) → thread_of names.new thread.new gs ≡
        draw_all drawn.old (nulls - before) before (thread_of names.old thread.old gs)) }
    ensures ops { thread.new.ops ≡ thread.old.ops }
{
    for place in before..nulls {
        drawn.name(alloc, names, thread, place + 1)?;
    }
    Ok(())
}

impl Drawn {
    // Names the null at this place of the op, and goes on to the next variable.
    fn name(
        &mut self,
        alloc: Global,
        names: &mut Names,
        thread: &mut Thread,
        place: u32,
    ) -> Result<(), Memory>
        ensures named { OnOk result ((gs : List Given) → thread_of names.new thread.new gs ≡
            draw_next self.old place (thread_of names.old thread.old gs)) }
        ensures next { OnOk result (HasNext self.old self.new) }
        ensures ops { thread.new.ops ≡ thread.old.ops }
    {
        let cause = Cause {
            source: self.source,
            variable: self.variable,
            image: self.image.copy(alloc)?,
        };
        let Some(next) = self.variable.checked_add(1) else {
            return Err(Memory);
        };
        let null = Null {
            update: self.op,
            attempt: 0,
            place,
        };
        name_one(self.number, names, thread, cause, null)?;
        self.variable = next;
        Ok(())
    }
}

// Names one null, which has this cause.
#[tactic(auto, using(crate::proofs::Naming::named))]
fn name_one(
    number: u32,
    names: &mut Names,
    thread: &mut Thread,
    cause: Cause,
    null: Null,
) -> Result<(), Memory>
    ensures named { OnOk result ((gs : List Given) →
        HasDrawnOne number (null_of null) (cause_of cause)
        (thread_of names.old thread.old gs) (thread_of names.new thread.new gs)) }
    ensures ops { thread.new.ops ≡ thread.old.ops }
{
    let place = give(&mut thread.places, &thread.given, cause)?;
    thread.given.push(place)?;
    let name = Null {
        update: number,
        attempt: 0,
        place,
    };
    names.give(null, name)
}
