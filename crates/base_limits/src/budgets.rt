//! The number of steps that an update may take.
ghost use Rattle.std.specs.Prelude.{◌≡◌, ◌≤◌, nat_lt};

use std::marker::Model;

/// The number of steps that an update may take: from 1 to 1,000,001, which is one more than a workspace allows. Contracts see
/// that number.
#[derive(Clone, Copy, Debug)]
pub struct Budget {
    steps: u32,
}

impl Model for Budget {
    ghost use Rattle.std.specs.Prelude.{ℕ, ◌≤◌};

    ghost Value = { ℕ };

    ghost view = { λ b. b.steps };

    ghost invariant = { λ b. (1 ≤ b.steps) × (b.steps ≤ 1000001) };

    ghost inverse = { λ n. record { steps = n } };
}

impl Budget {
    /// The budget of `steps` steps.
    pub fn new(steps: u32) -> Budget
        requires some { 1 ≤ steps }
        requires most { steps ≤ 1000001 }
        ensures same { result ≡ steps }
    {
        Budget { steps }
    }

    /// The number of steps.
    pub fn steps(self) -> u32
        ensures same { result ≡ self }
    {
        self.steps
    }

    /// Whether it has a step left after `steps` steps.
    pub fn allows(self, steps: u32) -> bool
        ensures answer { result ≡ nat_lt steps self }
    {
        steps < self.steps
    }

    /// A law: each budget is within the limits. The call does nothing.
    pub fn is_within(self)
        ensures some { 1 ≤ self }
        ensures most { self ≤ 1000001 }
    {
        let _steps = self.steps;
    }
}
