//! First violations over a plain set and over an indexed one, side by side.
//!
//! Each line of the input is a case: items with `;` between them, each a word and what belongs to it. `variables 1 x0 x1` has the
//! number of universal variables, then the names of all; `left 0 x0 5` and `right 1 x0 x1` are atoms of the mapping, `has 0 3 n1`
//! is a tuple of the base, and `insert 0 3 n1` and `delete 0 3 n1` are own writes, in order. A tuple begins with the number of
//! its relation. `n1` is a null, `wab` the word `ab`, everything else a number.
//!
//! A line of the output has the least image of a violation among all violations, among those caused forward, and among those
//! caused backward, in the base after the writes.
#![tactic(auto)]

mod answers;
mod case;
mod printing;
mod reading;
mod refusals;

use crate::answers::Answers;
use crate::case::{Case, indexed_after, plain_after};
use crate::reading::read_case;
use crate::refusals::CaseRefusal;
use base_types::Memory;
use std::alloc::Global;

// The answers over the plain set after the own writes.
fn over_plain(alloc: Global, case: &Case) -> Result<Answers, Memory> {
    let facts = plain_after(alloc, &case.base, case.own.as_slice())?;
    Answers::over(alloc, &case.mapping, &case.own, &facts)
}

// The answers over the indexed set after the own writes.
fn over_indexed(alloc: Global, case: &Case) -> Result<Answers, Memory> {
    let facts = indexed_after(alloc, &case.base, case.own.as_slice())?;
    Answers::over(alloc, &case.mapping, &case.own, &facts)
}

// The answers once, if they are the same for both sets; otherwise both.
fn compared(alloc: Global, plain: &Answers, indexed: &Answers) -> Result<String, CaseRefusal> {
    let text = if plain == indexed {
        format!(in alloc; "same {plain}")?
    } else {
        format!(in alloc; "plain {plain}; indexed {indexed}")?
    };
    Ok(text)
}

// The output for the case, given the answers over the plain set.
fn beside_plain(alloc: Global, case: &Case, plain: &Answers) -> Result<String, CaseRefusal> {
    let indexed = over_indexed(alloc, case)?;
    compared(alloc, plain, &indexed)
}

// The output for the case.
fn told_of(alloc: Global, case: &Case) -> Result<String, CaseRefusal> {
    let plain = over_plain(alloc, case)?;
    beside_plain(alloc, case, &plain)
}

// The output for the case that a line spells.
fn told(alloc: Global, line: &str) -> Result<String, CaseRefusal> {
    let case = read_case(alloc, line)?;
    told_of(alloc, &case)
}

fn main(rt: HostRuntime) -> anyhow::Result<()> {
    let alloc = rt.alloc();
    for line in rt.lines(alloc) {
        let text = told(alloc, line?.as_str())?;
        println!(rt; "{text}")?;
    }
    Ok(())
}
