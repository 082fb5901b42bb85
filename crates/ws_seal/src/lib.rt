//! A log of texts on a disk, in which each text vouches for all texts before it. The first text is the head; the others stand
//! after it in a roll. A payload is `MARK LF TEXT`. MARK is the first 8 bytes of SHA-256 over the mark before and the text, as 16
//! hexadecimal digits.
//!
//! A byte that was changed before the end of the last text is found, if it is not the gate before that text and no two inputs
//! of the digest have one mark. A change of that gate looks like an append that was cut short. It is trusted, not proved, that
//! nobody finds two such inputs. The marks have no key: other records that have marks made for them are not found.
#![tactic(auto)]

mod laws;
mod logs;
mod making;
mod reading;
mod seals;
mod telling;
mod types;

pub use crate::laws::{
    changes_are_told, logs_have_one_reading, processes_keep_what_is_acknowledged,
    the_last_mark_tells_all_texts,
};
pub use crate::logs::{AppendFault, Log};
pub use crate::making::{LogText, MakeFault, log_text};
pub use crate::reading::{read_log, read_tail};
pub use crate::seals::{Mark, mark_of};
pub use crate::telling::{TellFault, append_and_tell};
pub use crate::types::{Damage, ReadFault, Texts};
