//! The time at which something is said.

use jiff::Timestamp;
use std::alloc::{AllocError, Global};

/// The time in UTC, `seconds` after the beginning of 1970; the first second of 1970 if it is out of range.
pub fn time_of(alloc: Global, seconds: i64) -> Result<String, AllocError> {
    let stamp = Timestamp::from_second(seconds).unwrap_or(Timestamp::UNIX_EPOCH);
    format!(in alloc; "{stamp}")
}
