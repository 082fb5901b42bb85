//! How many updates are drawn.
ghost use Rattle.std.specs.Prelude.{◌≡◌, ◌≤◌};

use std::marker::Model;

/// How many updates are drawn: from 1 to 1,000. Contracts see that number.
#[derive(Clone, Copy, Debug)]
pub struct Count {
    number: u32,
}

impl Model for Count {
    ghost use Rattle.std.specs.Prelude.{ℕ, ◌≤◌};

    ghost Value = { ℕ };

    ghost view = { λ c. c.number };

    ghost invariant = { λ c. (1 ≤ c.number) × (c.number ≤ 1000) };

    ghost inverse = { λ n. record { number = n } };
}

impl Count {
    /// The count of `number` updates.
    pub fn new(number: u32) -> Count
        requires some { 1 ≤ number }
        requires most { number ≤ 1000 }
        ensures same { result ≡ number }
    {
        Count { number }
    }

    /// The number of updates.
    pub fn number(self) -> u32
        ensures same { result ≡ self }
        ensures some { 1 ≤ result }
        ensures most { result ≤ 1000 }
    {
        self.number
    }
}
