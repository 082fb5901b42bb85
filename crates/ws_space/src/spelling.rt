//! Updates, from the said form to the state's form and back.

use crate::naming::{
    named_tuple, named_tuples, named_value, named_values, null_of, said_fact, said_facts,
    said_value, said_values, unknown_of,
};
use crate::sources::{name_of, number_of};
use crate::texts::{bytes_of, small, text_of};
use base_types::{Memory, Name, NameList};
use std::alloc::Global;
use ws_lines::{Deed, Spelled, SpelledList, SpelledTuple, SpelledTupleList, Update as Numbered};
use ws_written::{NewFact, NewValue, NumberedUpdate, Rule, Stamp, Update};

/// The update in the state's form; None if it names a mapping that is not there.
pub(crate) fn update_of(
    alloc: Global,
    rules: &[Rule],
    stamp: &Stamp,
    said: &NumberedUpdate,
) -> Result<Option<Numbered>, Memory> {
    let mut news = NameList::new(alloc);
    let Some(deed) = deed_of(alloc, rules, &said.update, &mut news)? else {
        return Ok(None);
    };
    Ok(Some(Numbered {
        number: said.number,
        time: bytes_of(alloc, stamp.time.as_str())?,
        curator: bytes_of(alloc, stamp.curator.as_str())?,
        steps: said.steps,
        deed,
        news,
    }))
}

fn deed_of(
    alloc: Global,
    rules: &[Rule],
    update: &Update,
    news: &mut NameList,
) -> Result<Option<Deed>, Memory> {
    Ok(match update {
        Update::Insert(facts) => Some(Deed::Insert(spelled_all(alloc, facts.as_slice(), news)?)),
        Update::Delete(facts) => Some(Deed::Delete(named_tuples(alloc, facts.as_slice())?)),
        Update::Fill(unknown, value) => {
            Some(Deed::Fill(null_of(*unknown), named_value(alloc, value)?))
        }
        Update::Change(old, new) => Some(Deed::Swap(
            named_tuple(alloc, old)?,
            spelled(alloc, new, news)?,
        )),
        Update::Fix(name, values) => match number_of(rules, name.as_str()) {
            Some(number) => Some(Deed::Fix(number, named_values(alloc, values.as_slice())?)),
            None => None,
        },
        Update::Force(name) => forced(rules, name.as_str()),
        Update::Drop(name) => dropped(rules, name.as_str()),
    })
}

fn forced(rules: &[Rule], name: &str) -> Option<Deed> {
    Some(Deed::Force(number_of(rules, name)?))
}

fn dropped(rules: &[Rule], name: &str) -> Option<Deed> {
    Some(Deed::Drop(number_of(rules, name)?))
}

fn spelled_all(
    alloc: Global,
    facts: &[NewFact],
    news: &mut NameList,
) -> Result<SpelledTupleList, Memory> {
    let mut all = Vec::with_capacity(alloc, facts.len())?;
    for fact in facts {
        all.push(spelled(alloc, fact, news)?)?;
    }
    Ok(SpelledTupleList::from_vec(all))
}

fn spelled(alloc: Global, fact: &NewFact, news: &mut NameList) -> Result<SpelledTuple, Memory> {
    let mut values = Vec::with_capacity(alloc, fact.values.len())?;
    for value in &fact.values {
        values.push(spelled_value(alloc, value, news)?)?;
    }
    Ok(SpelledTuple {
        relation: small(fact.relation),
        values: SpelledList::from_vec(values),
    })
}

fn spelled_value(alloc: Global, value: &NewValue, news: &mut NameList) -> Result<Spelled, Memory> {
    Ok(match value {
        NewValue::Known(known) => Spelled::Known(named_value(alloc, known)?),
        NewValue::Fresh => Spelled::New(another(Name::new(alloc), news)?),
        NewValue::Named(name) => Spelled::New(new_of(bytes_of(alloc, name.as_str())?, news)?),
    })
}

// The number of the new unknown with this name. A name that is not there yet is added.
fn new_of(name: Name, news: &mut NameList) -> Result<u32, Memory> {
    for (place, other) in news.as_slice().iter().enumerate() {
        if *other == name {
            return Ok(u32::try_from(place.saturating_add(1)).unwrap_or(u32::MAX));
        }
    }
    another(name, news)
}

// Adds one more new unknown, and returns its number.
fn another(name: Name, news: &mut NameList) -> Result<u32, Memory> {
    news.push(name)?;
    Ok(u32::try_from(news.len()).unwrap_or(u32::MAX))
}

/// The update as it was said.
pub(crate) fn said_update(
    alloc: Global,
    rules: &[Rule],
    update: &Numbered,
) -> Result<Update, Memory> {
    let news = &update.news;
    Ok(match &update.deed {
        Deed::Insert(tuples) => Update::Insert(new_facts(alloc, tuples.as_slice(), news)?),
        Deed::Delete(tuples) => Update::Delete(said_facts(alloc, tuples.as_slice())?),
        Deed::Fill(name, value) => Update::Fill(unknown_of(*name), said_value(alloc, value)?),
        Deed::Swap(old, new) => {
            Update::Change(said_fact(alloc, old)?, new_fact(alloc, new, news)?)
        }
        Deed::Fix(mapping, values) => Update::Fix(
            String::from_str(alloc, name_of(rules, *mapping))?,
            said_values(alloc, values.as_slice())?,
        ),
        Deed::Force(mapping) => Update::Force(String::from_str(alloc, name_of(rules, *mapping))?),
        Deed::Drop(mapping) => Update::Drop(String::from_str(alloc, name_of(rules, *mapping))?),
    })
}

fn new_facts(
    alloc: Global,
    tuples: &[SpelledTuple],
    news: &NameList,
) -> Result<Vec<NewFact>, Memory> {
    let mut facts = Vec::new(alloc);
    for tuple in tuples {
        facts.push(new_fact(alloc, tuple, news)?)?;
    }
    Ok(facts)
}

fn new_fact(alloc: Global, tuple: &SpelledTuple, news: &NameList) -> Result<NewFact, Memory> {
    let mut values = Vec::new(alloc);
    for value in tuple.values.as_slice() {
        values.push(match value {
            Spelled::Known(known) => NewValue::Known(said_value(alloc, known)?),
            Spelled::New(number) => new_value(alloc, *number, news)?,
        })?;
    }
    Ok(NewFact {
        relation: u32::from(tuple.relation),
        values,
    })
}

fn new_value(alloc: Global, number: u32, news: &NameList) -> Result<NewValue, Memory> {
    let name = match news.get((number as usize).saturating_sub(1)) {
        Some(name) => text_of(name.as_slice()),
        None => "",
    };
    if name.is_empty() {
        return Ok(NewValue::Fresh);
    }
    Ok(NewValue::Named(String::from_str(alloc, name)?))
}
