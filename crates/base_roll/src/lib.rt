//! A roll of records on a disk, which survives a crash at any moment. A record is any bytes. The format is `{1 FRAME} GATE`: a
//! frame is a length in 4 bytes, the greatest first, and that number of bytes; the gate is any byte except 1. Any bytes may stand
//! before and after a roll.
#![tactic(auto)]

mod appending;
mod framing;
mod laws;
mod logging;
mod reading;
mod rolls;

pub use crate::appending::{PAYLOAD_LIMIT, append, create};
pub use crate::framing::{push_frame, push_record, split_frame, with_gate};
pub use crate::laws::{
    crashes_keep_what_is_acknowledged, processes_keep_what_is_acknowledged, rolls_have_one_reading,
};
pub use crate::reading::load_synced;
pub use crate::rolls::{AppendFault, Roll};
