//! What an update may do next.

/// The standing of an update. If several of these hold, it is `Withdrawn`, else how the attempt ended, else `Held`, else what is
/// lacking at its question.
#[derive(Clone, Copy, Debug)]
pub enum Standing {
    /// It may make a step.
    Ready,
    /// It used up its retries, so it waits for all lower updates; the number is the lowest update that is not committed.
    Held(u32),
    /// It is at a question, and no next answer has been delivered.
    Pending,
    /// It is at a question, and the next delivered answer does not fit.
    Misfit,
    /// Its attempt ended with its work done.
    Done,
    /// Its attempt ended out of its budget of steps.
    Spent,
    /// Its attempt ended because the update names a null that is nowhere.
    Refused,
    /// It was withdrawn.
    Withdrawn,
}
