//! The head of a file: the workspace as it stood at the last fold, and the updates that waited then.

use crate::facts::Fact;
use crate::lines::{Answer, Stamp};
use crate::relations::Relation;
use crate::rules::Rule;
use crate::updates::NumberedUpdate;
use crate::values::Unknown;

/// The image for which an update drew an unknown.
#[derive(Drop)]
pub enum Image {
    /// No image: the unknown is the new one of this number in the update's line, from 1.
    New(u32),
    /// The image of the mapping's left side; empty if the mapping is the `_fix_m` of the update itself.
    Facts(Vec<Fact>),
}

/// `drew N P MAPPING VARIABLE [IMAGE]`: the mapping and the variable that drew the unknown at this place of the update.
#[derive(Drop)]
pub struct Drawn {
    pub place: u32,
    pub mapping: String,
    pub variable: String,
    pub image: Image,
}

/// An update that waits: its line, the unknowns that it drew so far, and the answers that it took.
#[derive(Drop)]
pub struct Waiting {
    pub stamp: Stamp,
    pub update: NumberedUpdate,
    pub drawn: Vec<Drawn>,
    pub answers: Vec<Answer>,
}

/// The head.
#[derive(Drop)]
pub struct Head {
    /// When and by whom the workspace was made.
    pub created: Stamp,
    /// The greatest number that any update was given.
    pub last: u32,
    /// The number of records that stood before this head, since the workspace was made.
    pub at: u32,
    pub relations: Vec<Relation>,
    /// The mappings in force, in order.
    pub in_force: Vec<Rule>,
    pub proposed: Vec<Rule>,
    /// The unknowns of the base, in the order in which they were drawn.
    pub unknowns: Vec<Unknown>,
    /// The tuples of the base, in order.
    pub base: Vec<Fact>,
    /// The updates that wait, in the order of their numbers.
    pub waiting: Vec<Waiting>,
}
