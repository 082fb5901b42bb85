//! The candidates of a question, in the form in which they are shown.

use crate::asked::AskedNow;
use crate::texts::fact_text;
use base_types::Memory;
use std::alloc::Global;
use ws_space::Space;

/// A candidate: its number, counted from 1, and the tuple in the form that commands take.
#[derive(Drop)]
pub(crate) struct Candidate {
    pub number: usize,
    pub text: String,
}

/// Candidates that contain a text: the candidates that are shown, and the number of all.
#[derive(Drop)]
pub(crate) struct Candidates {
    pub shown: Vec<Candidate>,
    pub fit: usize,
}

/// The candidates that contain `like`, ignoring capitals; all if it is None. At most `limit` are shown.
pub(crate) fn candidates_of(
    alloc: Global,
    space: &Space,
    asked: &AskedNow,
    like: Option<&str>,
    limit: usize,
) -> Result<Candidates, Memory> {
    let mut candidates = Candidates {
        shown: Vec::new(alloc),
        fit: 0,
    };
    for place in asked.ranked.iter() {
        let Some(tuple) = asked.question.candidates.get(*place) else {
            continue;
        };
        if like.is_none() && limit <= candidates.shown.len() {
            candidates.fit = candidates.fit.saturating_add(1);
            continue;
        }
        let text = fact_text(alloc, space, tuple)?;
        if has_text(alloc, text.as_str(), like)? {
            candidates.add(*place, text, limit)?;
        }
    }
    Ok(candidates)
}

impl Candidates {
    // Counts the candidate at a place, and shows it if fewer than `limit` are shown yet.
    fn add(&mut self, place: usize, text: String, limit: usize) -> Result<(), Memory> {
        self.fit = self.fit.saturating_add(1);
        if self.shown.len() < limit {
            let number = place.saturating_add(1);
            self.shown.push(Candidate { number, text })?;
        }
        Ok(())
    }
}

fn has_text(alloc: Global, text: &str, like: Option<&str>) -> Result<bool, Memory> {
    let Some(like) = like else {
        return Ok(true);
    };
    let text = text.to_lowercase(alloc)?;
    let like = like.to_lowercase(alloc)?;
    Ok(text.as_str().contains(like.as_str()))
}
