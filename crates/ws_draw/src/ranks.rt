//! The columns of a picture. A mapping stands to the right of the relations that it reads, and to the left of the relations that
//! it fills, as far as cycles allow.

use crate::links::Link;
use std::alloc::{AllocError, Global};

/// The rank of each relation and of each mapping. Boxes of one rank stand in one column.
#[derive(Drop)]
pub(crate) struct Ranks {
    pub relations: Vec<usize>,
    pub links: Vec<usize>,
}

/// The ranks of `count` relations and of the mappings. They begin with 0, and are raised in `count` rounds.
pub(crate) fn ranks_of(
    alloc: Global,
    count: usize,
    links: &[Link<'_>],
) -> Result<Ranks, AllocError> {
    let mut relations = zeros(alloc, count)?;
    let mut ranks = zeros(alloc, links.len())?;
    for _ in 0..count {
        for (rank, link) in ranks.iter_mut().zip(links) {
            *rank = rank_of(relations.as_slice(), link);
            raise(&mut relations, link, rank.saturating_add(1));
        }
    }
    Ok(Ranks {
        relations,
        links: ranks,
    })
}

fn zeros(alloc: Global, count: usize) -> Result<Vec<usize>, AllocError> {
    let mut ranks = Vec::new(alloc);
    for _ in 0..count {
        ranks.push(0)?;
    }
    Ok(ranks)
}

// One more than the greatest rank on the left side, but at most 2n - 1 for n relations.
fn rank_of(relations: &[usize], link: &Link<'_>) -> usize {
    let mut greatest = 0usize;
    for relation in link.left.iter() {
        if let Some(rank) = relations.get(*relation as usize) {
            greatest = greatest.max(*rank);
        }
    }
    let most = relations.len().saturating_mul(2).saturating_sub(1);
    most.min(greatest.saturating_add(1))
}

// Raises the relations that stand only on the right side to `rank`, unless it is too high.
fn raise(relations: &mut Vec<usize>, link: &Link<'_>, rank: usize) {
    if relations.len().min(8).saturating_mul(2) < rank {
        return;
    }
    for relation in link.right.iter() {
        if link.left.contains(relation) {
            continue;
        }
        if let Some(old) = relations.get_mut(*relation as usize) {
            *old = rank.max(*old);
        }
    }
}
