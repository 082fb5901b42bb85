//! Plain cycles: relations that lead back to themselves without an unknown.

use crate::mappings::{is_gone, relation_name, stands_among};
use def_memory::Memory;
use std::alloc::Global;
use std::collections::BTreeMap;
use ws_space::Space;
use ws_written::{Atom, Rule, Term};

/// The relations that one leads to, each with the mapping that leads there; None is the new mapping.
type Ways = BTreeMap<u32, Option<u16>>;

/// For each relation, the relations that it leads to. One leads to another if an atom of it is on the left of a mapping, and an
/// atom of the other, without an unknown, on the right.
type Leads = BTreeMap<u32, Ways>;

// Whether each variable of the atom is on the left side.
fn is_plain(rule: &Rule, atom: &Atom) -> bool {
    for term in atom.terms.iter() {
        if let Term::Variable(name) = term {
            if !stands_among(rule.left.as_slice(), name.as_str()) {
                return false;
            }
        }
    }
    true
}

fn add_way(
    alloc: Global,
    leads: &mut Leads,
    from: u32,
    to: u32,
    by: Option<u16>,
) -> Result<(), Memory> {
    if !leads.contains_key(&from) && leads.insert(from, BTreeMap::new(alloc)).is_err() {
        return Err(Memory);
    }
    if let Some(ways) = leads.get_mut(&from) {
        if !ways.contains_key(&to) && ways.insert(to, by).is_err() {
            return Err(Memory);
        }
    }
    Ok(())
}

// Adds the relations that the mapping makes lead to others, unless an earlier mapping does so.
fn add_rule(alloc: Global, leads: &mut Leads, rule: &Rule, by: Option<u16>) -> Result<(), Memory> {
    for atom in rule.right.iter() {
        if is_plain(rule, atom) {
            for left in rule.left.iter() {
                add_way(alloc, leads, left.relation, atom.relation, by)?;
            }
        }
    }
    Ok(())
}

// Which relations lead to which by the mappings that are not gone, and then by the new one.
fn leads_of(alloc: Global, space: &Space, rule: &Rule) -> Result<Leads, Memory> {
    let mut leads = BTreeMap::new(alloc);
    for (place, other) in space.rules.iter().enumerate() {
        if other.name.as_str() != rule.name.as_str() && !is_gone(space, place) {
            add_rule(alloc, &mut leads, other, u16::try_from(place).ok())?;
        }
    }
    add_rule(alloc, &mut leads, rule, None)?;
    Ok(leads)
}

/// A relation on a way: the place of the stop before it, if there is one; the mapping that leads here; and whether the new
/// mapping leads to some stop of the way.
#[derive(Clone, Copy)]
struct Stop {
    relation: u32,
    before: Option<usize>,
    by: Option<u16>,
    has_new: bool,
}

/// The ways from a relation, which reach each relation once. `closing` is the last step of a way that comes back by the new
/// mapping.
#[derive(Drop)]
struct Walk {
    stops: Vec<Stop>,
    goes_round: bool,
    closing: Option<Stop>,
}

impl Walk {
    // The stop before this one on its way; None at the first stop.
    fn before(&self, stop: Stop) -> Option<Stop> {
        self.stops.get(stop.before?).copied()
    }

    fn has(&self, relation: u32) -> bool {
        for stop in self.stops.iter().skip(1) {
            if stop.relation == relation {
                return true;
            }
        }
        false
    }

    // Adds the relations that a stop leads to.
    fn go_on(&mut self, ways: &Ways, start: u32, place: usize, stop: Stop) -> Result<(), Memory> {
        for (to, by) in ways {
            let next = Stop {
                relation: *to,
                before: Some(place),
                by: *by,
                has_new: stop.has_new || by.is_none(),
            };
            if *to == start {
                self.goes_round = true;
                if next.has_new && self.closing.is_none() {
                    self.closing = Some(next);
                }
            }
            if !self.has(*to) {
                self.stops.push(next)?;
            }
        }
        Ok(())
    }
}

// The ways from the relation, nearest stops first, up to one that comes back by the new mapping.
fn walk_from(alloc: Global, leads: &Leads, start: u32) -> Result<Walk, Memory> {
    let mut walk = Walk {
        stops: Vec::new(alloc),
        goes_round: false,
        closing: None,
    };
    walk.stops.push(Stop {
        relation: start,
        before: None,
        by: None,
        has_new: false,
    })?;
    for place in 0..usize::MAX {
        let Some(stop) = walk.stops.get(place).copied() else {
            break;
        };
        if walk.closing.is_some() {
            break;
        }
        if let Some(ways) = leads.get(&stop.relation) {
            walk.go_on(ways, start, place, stop)?;
        }
    }
    Ok(walk)
}

// `A -> B by M`.
fn step_text(
    alloc: Global,
    space: &Space,
    rule: &Rule,
    from: u32,
    stop: Stop,
) -> Result<String, Memory> {
    let from = relation_name(space, from);
    let to = relation_name(space, stop.relation);
    let by = match stop.by {
        Some(mapping) => space.mapping_name(mapping),
        None => rule.name.as_str(),
    };
    Ok(format!(in alloc; "{from} -> {to} by {by}")?)
}

// The steps of the way with this last stop, between commas.
fn steps_text(
    alloc: Global,
    space: &Space,
    rule: &Rule,
    walk: &Walk,
    closing: Stop,
) -> Result<String, Memory> {
    let mut text = String::new(alloc);
    let mut last = closing;
    for _ in 0..walk.stops.len().saturating_add(1) {
        let Some(before) = walk.before(last) else {
            break;
        };
        let step = step_text(alloc, space, rule, before.relation, last)?;
        text = if text.is_empty() {
            step
        } else {
            format!(in alloc; "{step}, {text}")?
        };
        last = before;
    }
    Ok(text)
}

/// The plain cycle that the mapping closes, together with the mappings that are not gone: `A -> B by M, ..`. None if it closes
/// none.
pub(crate) fn cycle_words(
    alloc: Global,
    space: &Space,
    rule: &Rule,
) -> Result<Option<String>, Memory> {
    let leads = leads_of(alloc, space, rule)?;
    let mut goes_round = false;
    for (start, _) in &leads {
        let walk = walk_from(alloc, &leads, *start)?;
        if let Some(closing) = walk.closing {
            return Ok(Some(steps_text(alloc, space, rule, &walk, closing)?));
        }
        goes_round = goes_round || walk.goes_round;
    }
    if !goes_round {
        return Ok(None);
    }
    let name = rule.name.as_str();
    Ok(Some(format!(in alloc; "by {name}")?))
}
