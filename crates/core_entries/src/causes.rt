//! Why an update was restarted.

use base_types::List;
use chase_query::Reply;

/// Why an update was restarted. Reads are counted from 1 in the log of the reader.
#[derive(Debug, Drop)]
pub enum Cause {
    /// The reader's read had the old answer; with the writer's new writes it has the new one.
    Conflict {
        reader: u32,
        read: u64,
        writer: u32,
        old: Reply,
        new: Reply,
    },
    /// The reader's read depends on what the aborted update `on` wrote.
    Depends {
        reader: u32,
        read: u64,
        on: u32,
    },
}

/// The causes of an event: the conflicts in number order, and then the dependences in number order.
pub type CauseList = List<Cause>;
