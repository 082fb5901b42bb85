//! The number of workers that run a session's updates, and their settings.
ghost use Rattle.std.specs.Prelude.{◌≡◌, ◌≤◌};
ghost use Rattle.core_queue.specs.declared.settings.Settings.{Settings};

use core_queue::Settings;
use std::marker::Model;

/// The number of workers that run a session's updates, from 1 to 16, and their settings, with at most 4 retries.
#[derive(Clone, Copy, Debug)]
pub struct Crew {
    workers: u32,
    settings: Settings,
}

impl Model for Crew {
    ghost use Rattle.std.specs.Prelude.{◌≤◌};
    ghost use Rattle.cmd_threads.specs.Crews.{CrewView};

    ghost Value = { CrewView };

    ghost view = { λ c. record { workers = c.workers; settings = c.settings } };

    ghost invariant = { λ c. (1 ≤ c.workers) × (c.workers ≤ 16) × (c.settings.retries ≤ 4) };

    ghost inverse = { λ v. record { workers = v.workers; settings = v.settings } };
}

impl Crew {
    /// A crew of `workers` workers with these settings.
    pub fn new(workers: u32, settings: Settings) -> Crew
        requires workers { (1 ≤ workers) × (workers ≤ 16) }
        requires retries { settings.retries ≤ 4 }
        ensures settings { result.settings ≡ settings }
    {
        Crew { workers, settings }
    }

    /// The number of workers.
    pub fn seats(self) -> u64
        ensures same { result ≡ self.workers }
        ensures few { (1 ≤ result) × (result ≤ 16) }
    {
        u64::from(self.workers)
    }

    /// Their settings.
    pub fn settings(self) -> Settings
        ensures same { result ≡ self.settings }
        ensures retries { result.retries ≤ 4 }
    {
        self.settings
    }
}
