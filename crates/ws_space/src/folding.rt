//! A fold: what stands becomes the head.

use crate::copies::copy_rule;
use crate::naming::{add_said_facts, said_fact, said_facts, unknown_of};
use crate::sources::called;
use crate::spaces::Space;
use crate::spelling::said_update;
use crate::texts::{name_at, string_of, text_of};
use base_types::{Choice, MappingList, Memory, Null, TupleList, Value};
use std::alloc::Global;
use ws_lines::{Given, Source, Update};
use ws_names::{Cause, Place};
use ws_run::fixing_mapping;
use ws_state::{Head as Numbered, HeadWaiting};
use ws_written::{
    Answer, Choice as SaidChoice, Drawn, Head, Image, NumberedUpdate, Question, Relation, Rule,
    Stamp, Unknown, Waiting,
};

impl Space {
    /// The head of a fold: what stands becomes the base, and what waits goes on waiting.
    pub fn head(&self, alloc: Global) -> Result<Head, Memory> {
        let numbered = self.state.head(alloc)?;
        let head = self.head_of(alloc, &numbered);
        drop(numbered);
        head
    }

    fn head_of(&self, alloc: Global, numbered: &Numbered) -> Result<Head, Memory> {
        let mut head = Head {
            created: Stamp {
                time: String::new(alloc),
                curator: String::new(alloc),
            },
            last: numbered.last,
            at: self.at(),
            relations: Vec::new(alloc),
            in_force: Vec::new(alloc),
            proposed: Vec::new(alloc),
            unknowns: Vec::new(alloc),
            base: Vec::new(alloc),
            waiting: Vec::new(alloc),
        };
        match self.fill(alloc, numbered, &mut head) {
            Ok(()) => Ok(head),
            Err(memory) => {
                drop(head);
                Err(memory)
            }
        }
    }

    // Fills the head, which has only its numbers so far.
    fn fill(&self, alloc: Global, numbered: &Numbered, head: &mut Head) -> Result<(), Memory> {
        head.created.time.push_str(self.created.time.as_str())?;
        head.created
            .curator
            .push_str(self.created.curator.as_str())?;
        add_relations(&mut head.relations, self.relations.as_slice())?;
        add_unknowns(&mut head.unknowns, numbered.unknowns.as_slice())?;
        add_said_facts(alloc, &mut head.base, numbered.base.as_slice())?;
        let rules = self.rules_kept(alloc, numbered)?;
        match add_waits(alloc, &mut head.waiting, numbered, rules.as_slice()) {
            Ok(()) => add_rules(head, rules, numbered.in_force),
            Err(memory) => {
                drop(rules);
                Err(memory)
            }
        }
    }

    // The mappings of the head in the said form, found by their names there.
    fn rules_kept(&self, alloc: Global, numbered: &Numbered) -> Result<Vec<Rule>, Memory> {
        let mut kept = Vec::new(alloc);
        for mapping in numbered.mappings.as_slice() {
            let name = text_of(mapping.name.as_slice());
            if let Some(number) = self.mapping(name) {
                if let Some(rule) = self.rules.get(usize::from(number)) {
                    kept.push(copy_rule(alloc, rule)?)?;
                }
            }
        }
        Ok(kept)
    }
}

// Adds the first `count` mappings as those in force, and the others as proposed.
fn add_rules(head: &mut Head, rules: Vec<Rule>, count: usize) -> Result<(), Memory> {
    for (place, rule) in rules.into_iter().enumerate() {
        if place < count {
            head.in_force.push(rule)?;
        } else {
            head.proposed.push(rule)?;
        }
    }
    Ok(())
}

/// Adds copies of relations.
pub(crate) fn add_relations(
    copies: &mut Vec<Relation>,
    relations: &[Relation],
) -> Result<(), Memory> {
    for relation in relations {
        copies.push(relation.clone()?)?;
    }
    Ok(())
}

fn add_unknowns(unknowns: &mut Vec<Unknown>, names: &[Null]) -> Result<(), Memory> {
    for name in names {
        unknowns.push(unknown_of(*name))?;
    }
    Ok(())
}

// Adds the updates that wait, by number.
fn add_waits(
    alloc: Global,
    waits: &mut Vec<Waiting>,
    head: &Numbered,
    rules: &[Rule],
) -> Result<(), Memory> {
    for waiting in head.waits.as_slice() {
        waits.push(wait_said(alloc, head, rules, waiting)?)?;
    }
    waits.sort_by_key(|waiting| waiting.update.number)?;
    Ok(())
}

fn wait_said(
    alloc: Global,
    head: &Numbered,
    rules: &[Rule],
    waiting: &HeadWaiting,
) -> Result<Waiting, Memory> {
    Ok(Waiting {
        stamp: stamp_said(alloc, &waiting.update)?,
        drawn: all_drawn(alloc, head, rules, waiting.places.as_slice())?,
        answers: answers_said(alloc, rules, waiting.answers.as_slice())?,
        update: NumberedUpdate {
            number: waiting.update.number,
            steps: waiting.update.steps,
            update: said_update(alloc, rules, &waiting.update)?,
        },
    })
}

fn stamp_said(alloc: Global, update: &Update) -> Result<Stamp, Memory> {
    Ok(Stamp {
        time: string_of(alloc, update.time.as_slice())?,
        curator: string_of(alloc, update.curator.as_slice())?,
    })
}

fn all_drawn(
    alloc: Global,
    head: &Numbered,
    rules: &[Rule],
    places: &[Place],
) -> Result<Vec<Drawn>, Memory> {
    let mut drawn = Vec::new(alloc);
    for place in places {
        drawn.push(drawn_said(alloc, head, rules, place)?)?;
    }
    Ok(drawn)
}

fn answers_said(alloc: Global, rules: &[Rule], answers: &[Given]) -> Result<Vec<Answer>, Memory> {
    let mut said = Vec::new(alloc);
    for given in answers {
        said.push(answer_said(alloc, rules, given)?)?;
    }
    Ok(said)
}

fn drawn_said(
    alloc: Global,
    head: &Numbered,
    rules: &[Rule],
    place: &Place,
) -> Result<Drawn, Memory> {
    Ok(Drawn {
        place: place.number,
        mapping: called(alloc, rules, place.cause.source)?,
        variable: variable_said(alloc, &head.mappings, &place.cause)?,
        image: image_said(alloc, &place.cause)?,
    })
}

/// The name of the variable that an unknown was drawn for: `u` for one that an update drew itself.
pub fn variable_said(
    alloc: Global,
    mappings: &MappingList,
    cause: &Cause,
) -> Result<String, Memory> {
    match cause.source {
        Source::Draw => Ok(String::from_str(alloc, "u")?),
        Source::By(mapping) => match mappings.get(usize::from(mapping)) {
            Some(mapping) => name_at(alloc, &mapping.names, cause.variable),
            None => Ok(String::new(alloc)),
        },
        Source::Fix(mapping) => match mappings.get(usize::from(mapping)) {
            Some(mapping) => {
                let fixing = fixing_mapping(alloc, mapping)?;
                name_at(alloc, &fixing.names, cause.variable)
            }
            None => Ok(String::new(alloc)),
        },
    }
}

fn image_said(alloc: Global, cause: &Cause) -> Result<Image, Memory> {
    Ok(match cause.source {
        Source::Draw => Image::New(wanted(&cause.image)),
        Source::By(_) => Image::Facts(said_facts(alloc, cause.image.as_slice())?),
        Source::Fix(_) => Image::Facts(Vec::new(alloc)),
    })
}

// The number of the new unknown that the image asks for.
fn wanted(image: &TupleList) -> u32 {
    let Some(tuple) = image.get(0) else {
        return 0;
    };
    match tuple.values.get(0) {
        Some(Value::Int(number)) => u32::try_from(*number).unwrap_or(0),
        _ => 0,
    }
}

/// The answer as it is said.
pub(crate) fn answer_said(alloc: Global, rules: &[Rule], given: &Given) -> Result<Answer, Memory> {
    Ok(Answer {
        choice: choice_said(alloc, &given.choice)?,
        question: Question {
            mapping: called(alloc, rules, given.asked.source)?,
            facts: said_facts(alloc, given.asked.tuples.as_slice())?,
        },
    })
}

fn choice_said(alloc: Global, choice: &Choice) -> Result<SaidChoice, Memory> {
    Ok(match choice {
        Choice::Expand => SaidChoice::Expand,
        Choice::Unify(tuple) => SaidChoice::Unify(said_fact(alloc, tuple)?),
        Choice::Delete(tuples) => SaidChoice::Delete(said_facts(alloc, tuples.as_slice())?),
    })
}
