//! The settings of a core.

/// How the dependence on an aborted update is tested: by the values of reads, or by the relations that they mention.
#[derive(Clone, Copy, Debug, PartialEq, Eq)]
pub enum Deps {
    Precise,
    Coarse,
}

/// How many retries an update has before it waits for all lower ones, and how dependence is tested.
#[derive(Clone, Copy, Debug, PartialEq, Eq)]
pub struct Settings {
    pub retries: u32,
    pub deps: Deps,
}
