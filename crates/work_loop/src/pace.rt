// The number of small pieces of work that a worker lets its bench do at once.
ghost use Rattle.std.specs.Prelude.{◌≡◌, ◌≤◌, false};

use std::marker::Model;

// The number of small pieces in a row that are required, at first, before the bench may do pieces itself.
const ROW: u64 = 2;

// The longest row that is ever required.
const LONGEST: u64 = 64;

// The number of pieces that the bench may do itself, at first.
const FIRST: u64 = 4;

// The greatest number of pieces that the bench may do itself.
const MOST: u64 = 64;

/// The sizes of a worker's latest pieces of work; contracts see the number of pieces that the bench may do now. After enough
/// small pieces in a row the bench does pieces itself, more and more at once. If that does not help, a row of twice the length is
/// required before the bench may do so again. So the bench hardly ever does large pieces.
#[derive(Drop)]
pub(crate) struct Pace {
    most: u64,
    row: u64,
    wanted: u64,
    reach: u64,
}

impl Model for Pace {
    ghost use Rattle.std.specs.Prelude.{ℕ, ◌≤◌};

    ghost Value = { ℕ };

    ghost view = { λ p. p.most };

    ghost invariant = { λ p. (p.most ≤ 64) × (p.reach ≤ 64) × (1 ≤ p.wanted) };
}

impl Pace {
    pub(crate) fn new() -> Pace
        ensures none { result ≡ 0 }
    {
        Pace {
            most: 0,
            row: 0,
            wanted: ROW,
            reach: FIRST,
        }
    }

    /// The number of pieces that the bench may do now.
    pub(crate) fn most(&self) -> u64
        ensures now { result ≡ self.now }
        ensures few { result ≤ 64 }
    {
        self.most
    }

    /// Notes that the worker made a plan itself, and whether the piece was small.
    pub(crate) fn planned(&mut self, small: bool)
        ensures large { small ≡ false → self.new ≡ 0 }
    {
        self.row = if small { self.row.saturating_add(1) } else { 0 };
        self.most = if self.row < self.wanted {
            0
        } else {
            self.reach
        };
    }

    /// Notes that the bench did pieces itself, and whether more may be had at once.
    pub(crate) fn moved(&mut self, more: bool)
        ensures last { more ≡ false → self.new ≡ 0 }
    {
        if more && self.most > 0 {
            if self.reach == MOST {
                self.wanted = 1;
            }
            self.reach = self.reach.saturating_mul(2).min(MOST);
            self.most = self.reach;
        } else if self.most > 0 {
            self.row = 0;
            self.most = 0;
            self.wanted = self.wanted.saturating_mul(2).min(LONGEST);
            self.reach = FIRST.max(self.reach / 2);
        }
    }
}
