//! Why a name stands for no unknown.

use crate::naming::null_of;
use crate::spaces::Space;
use base_types::{Memory, Value};
use std::alloc::Global;
use std::fmt::Write;
use ws_fault::{Fault, Refusal, Status};
use ws_print::{Text, add_unknown, add_value};
use ws_run::{Step, follow};
use ws_state::Standing;
use ws_written::{Unknown, Value as Said};

impl Space {
    /// Refuses a value that is an unknown which is not there.
    pub fn check(&self, alloc: Global, value: &Said) -> Result<(), Refusal> {
        match value {
            Said::Number(_) | Said::Text(_) => Ok(()),
            name => {
                self.unknown(alloc, name)?;
                Ok(())
            }
        }
    }

    /// The unknown of this name. It is refused if it is not there.
    pub fn unknown(&self, alloc: Global, name: &Said) -> Result<Unknown, Refusal> {
        let Said::Unknown(unknown) = name else {
            return Err(Refusal::Fault(no_unknown(alloc, name)?));
        };
        if self.within_unknown(*unknown).is_none() {
            return Err(Refusal::Fault(self.lost(alloc, *unknown)?));
        }
        Ok(*unknown)
    }

    /// The fault that a name stands for no unknown. It lists the updates that gave the unknown another value, or says that there
    /// is none.
    pub fn lost(&self, alloc: Global, unknown: Unknown) -> Result<Fault, Memory> {
        let fate = self.fate(alloc, unknown)?;
        if fate.is_empty() {
            return no_unknown(alloc, &Said::Unknown(unknown));
        }
        let mut words = Text::new(alloc);
        add_unknown(&mut words, unknown);
        words.push_str(" is no unknown any more");
        fault(alloc, words.done()?, fate)
    }

    // `update N took it to be V, update N took that to be V, ..`; empty if no update did.
    fn fate(&self, alloc: Global, unknown: Unknown) -> Result<String, Memory> {
        let Some(null) = self.state.names().null_called(null_of(unknown)) else {
            return Ok(String::new(alloc));
        };
        let mut fate = Text::new(alloc);
        let mut now = Value::Null(null);
        for standing in self.state.order().as_slice() {
            self.follow_update(alloc, &mut fate, &mut now, standing)?;
        }
        Ok(fate.done()?)
    }

    // Adds what the steps of an update took the value to be.
    fn follow_update(
        &self,
        alloc: Global,
        fate: &mut Text,
        now: &mut Value,
        standing: &Standing,
    ) -> Result<(), Memory> {
        for step in standing.steps.as_slice() {
            let next = follow(alloc, one(step), now)?;
            if next != *now {
                self.add_taken(alloc, fate, standing.held, &next)?;
                *now = next;
            }
        }
        Ok(())
    }

    fn add_taken(
        &self,
        alloc: Global,
        fate: &mut Text,
        held: usize,
        value: &Value,
    ) -> Result<(), Memory> {
        let number = self.number_at(held).unwrap_or(0);
        let what = if fate.is_empty() { "it" } else { "that" };
        if !fate.is_empty() {
            fate.push_str(", ");
        }
        write!(fate, "update {number} took {what} to be ");
        add_value(fate, &self.shown_value(alloc, value)?);
        Ok(())
    }
}

fn one(step: &Step) -> &[Step] {
    std::slice::from_ref(step)
}

// The fault that there is no unknown of this name.
fn no_unknown(alloc: Global, name: &Said) -> Result<Fault, Memory> {
    let mut words = Text::from_str(alloc, "there is no unknown ");
    add_value(&mut words, name);
    let words = words.done()?;
    let hint = "`show` has them; a new one is written ? in an insert";
    fault(alloc, words, String::from_str(alloc, hint)?)
}

fn fault(alloc: Global, words: String, hint: String) -> Result<Fault, Memory> {
    Ok(Fault {
        status: Status::Refused,
        words,
        place: None,
        hint: Some(hint),
        more: Vec::new(alloc),
    })
}
