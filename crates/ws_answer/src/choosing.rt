//! From what was said to a choice that fits the question.

use base_types::{Tuple, TupleList};
use def_memory::Memory;
use std::alloc::Global;
use std::collections::BTreeSet;
use ws_command::SaidChoice;
use ws_fault::{Nearest, Refusal, meant};
use ws_lines::Asked;
use ws_question::{AskedNow, count_text, fact_text};
use ws_report::{refuse, refuse_made, said_text};
use ws_space::Space;
use ws_written::{Answer, Choice, Fact, Question};

/// The choice for the question; None for `go`. It is refused if it names no candidate, or if it is for the other kind of
/// question.
pub(crate) fn choose(
    alloc: Global,
    space: &Space,
    asked: &AskedNow,
    said: &SaidChoice,
) -> Result<Option<Choice>, Refusal> {
    let chosen = match said {
        SaidChoice::Go => return Ok(None),
        SaidChoice::New => return Ok(Some(expanded(alloc, asked)?)),
        SaidChoice::Numbers(numbers) => numbered(alloc, asked, numbers.as_slice())?,
        SaidChoice::Facts(facts) => named(alloc, space, asked, facts.as_slice())?,
        SaidChoice::Delete(facts) => {
            let chosen = named(alloc, space, asked, facts.as_slice())?;
            if asked.question.is_positive {
                return refuse_which(alloc, asked);
            }
            chosen
        }
        SaidChoice::Unify(fact) => {
            let chosen = named(alloc, space, asked, std::slice::from_ref(fact))?;
            if !asked.question.is_positive {
                return refuse_what(alloc, asked);
            }
            chosen
        }
    };
    Ok(Some(taken(alloc, space, asked, chosen.as_slice())?))
}

// The refusal: the question asks which candidate the tuple is.
fn refuse_which<T: Drop>(alloc: Global, asked: &AskedNow) -> Result<T, Refusal> {
    let number = asked.number;
    let words = format!(in alloc;
        "update {number} asks which one it is: answer with one candidate, or new"
    )?;
    refuse(alloc, words.as_str(), "")
}

// The refusal: the question asks which tuples go.
fn refuse_what<T: Drop>(alloc: Global, asked: &AskedNow) -> Result<T, Refusal> {
    let number = asked.number;
    let words = format!(in alloc;
        "update {number} asks what goes: answer with one candidate or more"
    )?;
    refuse(alloc, words.as_str(), "")
}

fn expanded(alloc: Global, asked: &AskedNow) -> Result<Choice, Refusal> {
    if !asked.question.is_positive {
        return refuse_what(alloc, asked);
    }
    Ok(Choice::Expand)
}

// The candidates with these numbers.
fn numbered(alloc: Global, asked: &AskedNow, numbers: &[u32]) -> Result<Vec<Tuple>, Refusal> {
    let mut chosen = Vec::new(alloc);
    for number in numbers {
        match asked.candidate(*number as usize) {
            Some(candidate) => chosen.push(candidate.share()?)?,
            None => return refuse_number(alloc, asked, *number),
        }
    }
    Ok(chosen)
}

fn refuse_number(alloc: Global, asked: &AskedNow, number: u32) -> Result<Vec<Tuple>, Refusal> {
    let update = asked.number;
    let count = count_text(alloc, asked.count(), "candidate")?;
    let words = format!(in alloc; "update {update} has {count}, not {number}");
    refuse_made(alloc, words, format!(in alloc; "questions {update}"))
}

// The candidates that are these tuples.
fn named(
    alloc: Global,
    space: &Space,
    asked: &AskedNow,
    facts: &[Fact],
) -> Result<Vec<Tuple>, Refusal> {
    let candidates = in_order(alloc, asked.question.candidates.as_slice())?;
    let mut chosen = Vec::new(alloc);
    for fact in facts {
        let tuple = space.tuple(alloc, fact)?;
        if !candidates.contains(&tuple) {
            return refuse_named(alloc, space, asked, fact);
        }
        chosen.push(tuple)?;
    }
    Ok(chosen)
}

fn refuse_named(
    alloc: Global,
    space: &Space,
    asked: &AskedNow,
    fact: &Fact,
) -> Result<Vec<Tuple>, Refusal> {
    let number = asked.number;
    let text = said_text(alloc, space, fact)?;
    let words = format!(in alloc; "{text} is no candidate of {number}")?;
    let hint = match nearest_of(alloc, space, asked, text.as_str())? {
        Some(near) => meant(alloc, near.as_str())?,
        None => format!(in alloc; "questions {number} has them")?,
    };
    refuse(alloc, words.as_str(), hint.as_str())
}

// The candidate whose spelling is nearest to the text, if one is near.
fn nearest_of(
    alloc: Global,
    space: &Space,
    asked: &AskedNow,
    text: &str,
) -> Result<Option<String>, Memory> {
    let texts = texts_of(alloc, space, asked.question.candidates.as_slice())?;
    let mut nearest = Nearest::to(alloc, text)?;
    for candidate in texts.iter() {
        nearest.consider(candidate.as_str())?;
    }
    match nearest.name() {
        Some(name) => Ok(Some(String::from_str(alloc, name)?)),
        None => Ok(None),
    }
}

fn texts_of(alloc: Global, space: &Space, tuples: &[Tuple]) -> Result<Vec<String>, Memory> {
    let mut texts = Vec::new(alloc);
    for tuple in tuples {
        texts.push(fact_text(alloc, space, tuple)?)?;
    }
    Ok(texts)
}

// The choice that takes these candidates.
fn taken(
    alloc: Global,
    space: &Space,
    asked: &AskedNow,
    chosen: &[Tuple],
) -> Result<Choice, Refusal> {
    if !asked.question.is_positive {
        return Ok(Choice::Delete(each_once(alloc, space, chosen)?));
    }
    match chosen {
        [one] => Ok(Choice::Unify(space.fact(alloc, one)?)),
        _ => refuse_which(alloc, asked),
    }
}

// The tuples in order, without repetition.
fn each_once(alloc: Global, space: &Space, tuples: &[Tuple]) -> Result<Vec<Fact>, Refusal> {
    let rising = in_order(alloc, tuples)?;
    let mut facts = Vec::new(alloc);
    for tuple in &rising {
        facts.push(space.fact(alloc, tuple)?)?;
    }
    Ok(facts)
}

fn in_order(alloc: Global, tuples: &[Tuple]) -> Result<BTreeSet<Tuple>, Refusal> {
    let mut rising = BTreeSet::new(alloc);
    for tuple in tuples {
        rising.insert(tuple.share()?)?;
    }
    Ok(rising)
}

fn facts_of(alloc: Global, space: &Space, tuples: &TupleList) -> Result<Vec<Fact>, Memory> {
    let mut facts = Vec::new(alloc);
    for tuple in tuples.as_slice() {
        facts.push(space.fact(alloc, tuple)?)?;
    }
    Ok(facts)
}

/// The answer that makes this choice at the question.
pub(crate) fn answer_to(
    alloc: Global,
    space: &Space,
    asked: &Asked,
    choice: Choice,
) -> Result<Answer, Memory> {
    Ok(Answer {
        choice,
        question: Question {
            mapping: space.source_name(alloc, asked.source)?,
            facts: facts_of(alloc, space, &asked.tuples)?,
        },
    })
}
