//! The boxes of a picture, column by column.

use crate::links::Link;
use crate::ranks::ranks_of;
use std::alloc::{AllocError, Global};
use unicode_width::UnicodeWidthStr;
use ws_written::Relation;

/// The height of a box.
pub(crate) const HIGH: usize = 30;

// The margin of the picture, the distance between the tops of two boxes in a column, and the room between columns.
const MARGIN: usize = 10;

const ROW: usize = 46;

const GAP: usize = 50;

/// A relation or a mapping with its box: the upper left corner, and the width.
#[derive(Drop)]
pub(crate) struct Node<'a> {
    pub is_link: bool,
    pub number: usize,
    pub name: &'a str,
    pub is_open: bool,
    pub x: usize,
    pub y: usize,
    pub width: usize,
    rank: usize,
}

/// All boxes, column by column, the width of the picture, and the height of its tallest column.
#[derive(Drop)]
pub(crate) struct Layout<'a> {
    pub nodes: Vec<Node<'a>>,
    pub width: usize,
    pub height: usize,
}

impl<'a> Layout<'a> {
    /// The box of a relation or of a mapping.
    pub fn node(&self, is_link: bool, number: usize) -> Option<&Node<'a>> {
        self.nodes
            .iter()
            .find(|node| node.is_link == is_link && node.number == number)
    }
}

/// The boxes of the relations and mappings.
pub(crate) fn layout_of<'a>(
    alloc: Global,
    relations: &'a [Relation],
    links: &'a [Link<'a>],
) -> Result<Layout<'a>, AllocError> {
    let mut nodes = nodes_of(alloc, relations, links)?;
    nodes.sort_by_key(|node| (node.rank, node.is_link, node.number))?;
    let mut pen = Pen {
        rank: None,
        x: MARGIN,
        y: MARGIN,
        widest: 0,
        height: 0,
    };
    for node in nodes.iter_mut() {
        pen.place(node);
    }
    pen.end_column();
    Ok(Layout {
        nodes,
        width: pen.x,
        height: pen.height,
    })
}

fn nodes_of<'a>(
    alloc: Global,
    relations: &'a [Relation],
    links: &'a [Link<'a>],
) -> Result<Vec<Node<'a>>, AllocError> {
    let ranks = ranks_of(alloc, relations.len(), links)?;
    let mut nodes = Vec::new(alloc);
    for (number, (relation, rank)) in relations.iter().zip(ranks.relations.iter()).enumerate() {
        nodes.push(node_of(number, relation.name.as_str(), *rank))?;
    }
    for (number, (link, rank)) in links.iter().zip(ranks.links.iter()).enumerate() {
        let mut node = node_of(number, link.name, *rank);
        node.is_link = true;
        node.is_open = link.is_open;
        nodes.push(node)?;
    }
    Ok(nodes)
}

// The box of a relation, without a place yet.
fn node_of<'a>(number: usize, name: &'a str, rank: usize) -> Node<'a> {
    Node {
        is_link: false,
        number,
        name,
        is_open: false,
        x: 0,
        y: 0,
        width: name.width().saturating_mul(8).saturating_add(16),
        rank,
    }
}

// The place of the next box in a column, and the room that the boxes so far take.
#[derive(Drop)]
struct Pen {
    rank: Option<usize>,
    x: usize,
    y: usize,
    widest: usize,
    height: usize,
}

impl Pen {
    fn place(&mut self, node: &mut Node<'_>) {
        if self.is_beyond(node.rank) {
            self.end_column();
        }
        self.rank = Some(node.rank);
        node.x = self.x;
        node.y = self.y;
        self.widest = self.widest.max(node.width);
        self.height = self
            .height
            .max(self.y.saturating_add(HIGH).saturating_add(MARGIN));
        self.y = self.y.saturating_add(ROW);
    }

    fn is_beyond(&self, rank: usize) -> bool {
        match self.rank {
            Some(now) => now < rank,
            None => false,
        }
    }

    fn end_column(&mut self) {
        self.x = self.x.saturating_add(self.widest).saturating_add(GAP);
        self.y = MARGIN;
        self.widest = 0;
    }
}
