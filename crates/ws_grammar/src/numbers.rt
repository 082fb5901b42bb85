//! Numbers, and lists of numbers with ranges.

use crate::bytes::number_run;
use crate::cursors::Cursor;
use crate::items::Item;
use std::alloc::{AllocError, Global};
use std::collections::BTreeSet;
use ws_fault::{Refusal, Status};

/// The greatest number of numbers that a list may stand for.
const MOST: usize = 1_000_001;

impl<'a> Cursor<'a> {
    /// A number from `low` to `high`.
    pub(crate) fn number(&mut self, expected: &str, low: i64, high: i64) -> Result<i64, Refusal> {
        let Some((text, rest)) = number_run(self.rest) else {
            return self.fail(expected);
        };
        if let Ok(number) = text.parse::<i64>() {
            if low <= number && number <= high {
                self.go_on(rest);
                return Ok(number);
            }
        }
        let words = format!(in self.alloc; "{text} is out of range: {low} to {high}");
        self.refuse(Status::Unread, self.at(), words, Ok(None))
    }

    /// A number without a sign, from `low` to `high`.
    pub(crate) fn count(&mut self, expected: &str, low: u32, high: u32) -> Result<u32, Refusal> {
        let number = self.number(expected, i64::from(low), i64::from(high))?;
        Ok(u32::try_from(number).unwrap_or(high))
    }

    /// The number of an update.
    pub(crate) fn update_number(&mut self) -> Result<u32, Refusal> {
        self.count("the number of an update", 1, u32::MAX)
    }

    /// Numbers of updates: `N, N..M, ..`.
    pub(crate) fn numbers(&mut self) -> Result<Vec<u32>, Refusal> {
        let mut numbers = Vec::new(self.alloc);
        for _ in 0..u64::MAX {
            self.add_range(&mut numbers)?;
            if !self.take_sign(",") {
                break;
            }
        }
        Ok(numbers)
    }

    fn add_range(&mut self, numbers: &mut Vec<u32>) -> Result<(), Refusal> {
        let at = self.at();
        let first = self.update_number()?;
        let mut last = first;
        if self.take_sign("..") {
            last = self.count("a number", 1, u32::MAX)?;
        }
        let length = last.saturating_sub(first) as usize;
        if last < first || MOST < numbers.len().saturating_add(length).saturating_add(1) {
            let words = format!(in self.alloc; "the range {first}..{last} is empty or too long");
            return self.refuse(Status::Unread, at, words, Ok(None));
        }
        for number in first..=last {
            numbers.push(number)?;
        }
        Ok(())
    }

    /// Numbers of updates, without repetitions, in the order in which each stands first.
    pub(crate) fn distinct_numbers(&mut self) -> Result<Vec<u32>, Refusal> {
        let numbers = self.numbers()?;
        Ok(each_once(self.alloc, numbers.as_slice())?)
    }
}

// A candidate, by its number.
impl Item for u32 {
    fn read(cursor: &mut Cursor<'_>) -> Result<u32, Refusal> {
        cursor.count("a candidate's number", 1, u32::MAX)
    }
}

fn each_once(alloc: Global, numbers: &[u32]) -> Result<Vec<u32>, AllocError> {
    let mut seen = BTreeSet::new(alloc);
    let mut distinct = Vec::new(alloc);
    for number in numbers {
        if seen.insert(*number)? {
            distinct.push(*number)?;
        }
    }
    Ok(distinct)
}
