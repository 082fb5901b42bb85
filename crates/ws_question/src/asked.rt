//! A question as it stands now.

use crate::ranking::ranked;
use base_types::{Memory, Tuple};
use std::alloc::Global;
use ws_run::Question;
use ws_space::Space;
use ws_written::Rule;

/// The question of an update, over what stands now.
#[derive(Drop)]
pub struct AskedNow {
    /// The number of the update.
    pub number: u32,
    /// The number of the mapping that asks; in a `fix`, that of the mapping that is repaired.
    pub mapping: u16,
    /// The question, by names.
    pub question: Question,
    /// The places of the candidates in the order in which they are shown: candidates that share most values with what is known
    /// come first.
    pub ranked: Vec<usize>,
    /// Whether the update has an answer that does not fit any more.
    pub misfit: bool,
}

impl AskedNow {
    /// The wanted tuple; None if the question asks which tuples go.
    pub fn wanted(&self) -> Option<&Tuple> {
        if self.question.is_positive {
            return self.question.asked.tuples.get(0);
        }
        None
    }

    /// The candidate with this number, counted from 1.
    pub fn candidate(&self, number: usize) -> Option<&Tuple> {
        self.question.candidates.get(number.checked_sub(1)?)
    }

    /// The number of candidates.
    pub fn count(&self) -> usize {
        self.question.candidates.len()
    }

    /// The mapping that asks.
    pub(crate) fn rule<'a>(&self, space: &'a Space) -> Option<&'a Rule> {
        space.rule(self.mapping)
    }
}

/// The question of this update, with the order of its candidates.
pub fn asked_now(
    alloc: Global,
    space: &Space,
    number: u32,
    question: Question,
) -> Result<AskedNow, Memory> {
    let ranked = ranked(alloc, &question)?;
    let misfit = (question.taken as usize) < answers_of(space, number);
    Ok(AskedNow {
        number,
        mapping: space
            .source_mapping(question.asked.source)
            .unwrap_or(u16::MAX),
        question,
        ranked,
        misfit,
    })
}

// The number of answers that the update has, if it waits.
fn answers_of(space: &Space, number: u32) -> usize {
    for waiting in space.state.waiting().as_slice() {
        if space.number_at(waiting.held) == Some(number) {
            return waiting.answers.len();
        }
    }
    0
}
