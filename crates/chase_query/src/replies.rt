//! Answers of queries.
ghost use Rattle.std.specs.Prelude.{◌≡◌, ◌↔◌, IsTrue, IfOk};
ghost use Rattle.def_chase.specs.Queries.{Reply as ReplyMeant};
ghost use Rattle.chase_query.specs.Meanings.{reply_of};

use base_types::{Memory, TryCopy, TupleList};
use std::alloc::Global;

/// The answer of a query: yes or no; the image of the first violation, or that there is none; the tuples of the query, in order.
#[derive(Debug, Drop)]
pub enum Reply {
    Yes,
    No,
    Image(TupleList),
    Nothing,
    Tuples(TupleList),
}

impl Reply {
    /// Whether the two answers mean the same.
    pub fn is_same(&self, other: &Reply) -> bool
        ensures same { IsTrue result ↔ (reply_of self.now ≡ reply_of other.now) }
    {
        match self {
            Reply::Yes => matches!(other, Reply::Yes),
            Reply::No => matches!(other, Reply::No),
            Reply::Image(image) => match other {
                Reply::Image(its_image) => image == its_image,
                _ => false,
            },
            Reply::Nothing => matches!(other, Reply::Nothing),
            Reply::Tuples(tuples) => match other {
                Reply::Tuples(its_tuples) => tuples == its_tuples,
                _ => false,
            },
        }
    }
}

impl TryCopy for Reply {
    ghost Meaning = { ReplyMeant };

    ghost meaning = { reply_of };

    fn copy(&self, alloc: Global) -> Result<Reply, Memory>
        ensures same { IfOk result (λ copy. reply_of copy ≡ reply_of self.now) }
    {
        match self {
            Reply::Yes => Ok(Reply::Yes),
            Reply::No => Ok(Reply::No),
            Reply::Image(image) => Ok(Reply::Image(image.copy(alloc)?)),
            Reply::Nothing => Ok(Reply::Nothing),
            Reply::Tuples(tuples) => Ok(Reply::Tuples(tuples.copy(alloc)?)),
        }
    }
}
