//! Reasons.
use base_types::{List, Tuple, TupleList};

/// How a tuple came to be there: it is of the base; this step of this update inserted it, generated it by a mapping for
/// an image of its left side, or rewrote that tuple to it.
#[derive(Debug, Drop, PartialEq, Eq)]
pub enum How {
    Base,
    Inserted {
        update: u32,
        step: u32,
    },
    Generated {
        update: u32,
        step: u32,
        mapping: u16,
        image: TupleList,
    },
    Rewritten {
        update: u32,
        step: u32,
        from: Tuple,
    },
}

/// The reason for a tuple.
#[derive(Debug, Drop, PartialEq, Eq)]
pub struct Reason {
    pub tuple: Tuple,
    pub how: How,
}

/// The reason for the tuple that is explained, and then the reasons for what it rests on.
pub type Explanation = List<Reason>;
