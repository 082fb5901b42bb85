//! The settings of a core.

/// How the dependence on an aborted update is tested: by the values of reads (`Precise`), or by the relations that they mention
/// (`Coarse`).
#[derive(Clone, Copy, Debug, PartialEq, Eq)]
pub enum Deps {
    Precise,
    Coarse,
}

/// After more than `retries` restarts an update waits for all lower ones; `deps` says how dependence is tested.
#[derive(Clone, Copy, Debug, PartialEq, Eq)]
pub struct Settings {
    pub retries: u32,
    pub deps: Deps,
}
