//! Finding tuples within: how they are said, and whether they are there.

use crate::naming::{null_of, said_fact, said_value};
use crate::spaces::Space;
use crate::texts::{bytes_of, small};
use base_types::{Column, Facts, Memory, Tuple, Value, ValueList};
use chase_match::Walk;
use std::alloc::Global;
use ws_command::Pattern;
use ws_written::{Fact, Unknown, Value as Said};

impl Space {
    /// A tuple within in the form that people say it.
    pub fn shown(&self, alloc: Global, tuple: &Tuple) -> Result<Fact, Memory> {
        let named = self.state.names().tuple(alloc, tuple)?;
        said_fact(alloc, &named)
    }

    /// A value within in the form that people say it.
    pub(crate) fn shown_value(&self, alloc: Global, value: &Value) -> Result<Said, Memory> {
        let named = self.state.names().value(alloc, value)?;
        said_value(alloc, &named)
    }

    /// The tuple within that a said tuple stands for; None if it names an unknown that is not there.
    pub fn within(&self, alloc: Global, fact: &Fact) -> Result<Option<Tuple>, Memory> {
        let mut values = ValueList::new(alloc);
        for value in &fact.values {
            match self.within_value(alloc, value)? {
                Some(value) => values.push(value)?,
                None => return Ok(None),
            }
        }
        Ok(Some(Tuple::new(alloc, small(fact.relation), values)?))
    }

    /// The value within that a said value stands for; None if it is an unknown that is not there.
    pub fn within_value(&self, alloc: Global, value: &Said) -> Result<Option<Value>, Memory> {
        Ok(match value {
            Said::Number(number) => Some(Value::Int(*number)),
            Said::Text(text) => Some(Value::Word(bytes_of(alloc, text.as_str())?)),
            Said::Unknown(unknown) => self.within_unknown(*unknown),
            Said::Strange(_) => None,
        })
    }

    /// The value within that an unknown stands for; None if it is not there.
    pub fn within_unknown(&self, unknown: Unknown) -> Option<Value> {
        let null = self.state.names().null_called(null_of(unknown))?;
        let value = Value::Null(null);
        if self.stands(&value) {
            return Some(value);
        }
        None
    }

    // Whether some tuple has the value.
    fn stands(&self, value: &Value) -> bool {
        for (number, relation) in self.relations.iter().enumerate() {
            for column in 0..relation.columns.len() {
                if self.stands_in(number, column, value) {
                    return true;
                }
            }
        }
        false
    }

    fn stands_in(&self, relation: usize, column: usize, value: &Value) -> bool {
        let relation = u16::try_from(relation).unwrap_or(u16::MAX);
        let column = u16::try_from(column).unwrap_or(u16::MAX);
        self.state
            .facts()
            .scan(relation, column, value, None)
            .is_some()
    }

    /// Whether a tuple within is there.
    pub fn has(&self, tuple: &Tuple) -> bool {
        self.state.facts().contains(tuple)
    }

    /// The tuples that fit the pattern, within and in order; none if it names an unknown that is not there.
    pub fn matching(&self, alloc: Global, pattern: &Pattern) -> Result<Vec<Tuple>, Memory> {
        let mut columns = Vec::new(alloc);
        for value in &pattern.values {
            columns.push(match value {
                Some(value) => match self.within_value(alloc, value)? {
                    Some(value) => Some(value),
                    None => return Ok(Vec::new(alloc)),
                },
                None => None,
            })?;
        }
        self.fitting(alloc, small(pattern.relation), columns.as_slice())
    }

    /// The tuples of a relation with these values in their columns, within and in order. None in a column fits any value.
    pub fn fitting(
        &self,
        alloc: Global,
        relation: u16,
        columns: &[Option<Value>],
    ) -> Result<Vec<Tuple>, Memory> {
        let mut tuples = Vec::new(alloc);
        let mut walk = Walk::new(self.state.facts(), relation, first_column(columns));
        for _ in 0..u64::MAX {
            let Some(tuple) = walk.next() else {
                break;
            };
            if fits(columns, tuple) {
                tuples.push(tuple.share()?)?;
            }
        }
        Ok(tuples)
    }

    /// The tuples of a relation, within and in order.
    pub fn rows(&self, alloc: Global, relation: u32) -> Result<Vec<Tuple>, Memory> {
        self.fitting(alloc, small(relation), &[])
    }

    /// The number of tuples in a relation.
    pub fn count_rows(&self, relation: u32) -> usize {
        let mut count = 0usize;
        let mut walk = Walk::new(self.state.facts(), small(relation), None);
        for _ in 0..u64::MAX {
            if walk.next().is_none() {
                break;
            }
            count = count.saturating_add(1);
        }
        count
    }
}

// The first column with a value.
fn first_column(columns: &[Option<Value>]) -> Option<Column<'_>> {
    for (number, value) in columns.iter().enumerate() {
        if let Some(value) = value {
            let number = u16::try_from(number).unwrap_or(u16::MAX);
            return Some(Column { number, value });
        }
    }
    None
}

fn fits(columns: &[Option<Value>], tuple: &Tuple) -> bool {
    for (place, column) in columns.iter().enumerate() {
        if let (Some(wanted), Some(value)) = (column, tuple.values.get(place)) {
            if wanted != value {
                return false;
            }
        }
    }
    true
}
