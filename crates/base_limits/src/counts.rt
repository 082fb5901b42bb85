//! The limits of sessions and calls, each in this one place.

/// The most updates of a session.
pub const MOST_UPDATES: u32 = 1000;

/// The most steps of an update for which a call may ask.
pub const MOST_STEPS: u32 = 300;

/// The most retries of an update before it waits for all lower ones.
pub const MOST_RETRIES: u32 = 4;

/// The most mappings of a session.
pub const MOST_MAPPINGS: usize = 64;

/// The most mappings that the updates of a session add.
pub const MOST_ADDED_MAPPINGS: usize = 16;

/// The most curators of a session.
pub const MOST_CURATORS: usize = 64;

/// The most bytes of an input, of a journal's payload and of a saved session.
pub const MOST_BYTES: usize = 16_777_216;
