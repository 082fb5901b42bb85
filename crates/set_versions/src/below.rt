//! The set that an update sees: the base with the writes of lower updates.
ghost use Rattle.std.specs.Prelude.{◌≡◌};
ghost use Rattle.set_versions.specs.Standing.{seen};

use crate::sweeps::Sweep;
use crate::versions::Versions;
use base_types::{Candidates, Column, Facts, OuterName, Tuple, Value};

/// The versions as one update sees them.
#[derive(Drop)]
pub struct Below<'v> {
    pub versions: &'v Versions,
    pub number: u32,
}

impl<'v> Below<'v> {
    /// The tuples in order, one by one.
    pub fn sweep(&self) -> Sweep<'v>
        ensures all { result ≡ seen self.now.number self.now.versions.now }
    {
        self.versions.sweep(self.number)
    }
}

impl<'v> Facts for Below<'v> {
    ghost tuples = { λ b. seen b.number b.versions.now };

    fn is_in_order(&self) {
        self.versions.is_in_order(self.number);
    }

    fn contains(&self, tuple: &Tuple) -> bool {
        self.versions.contains(self.number, tuple)
    }

    fn beyond(&self, past: Option<&Tuple>) -> Option<&Tuple> {
        self.versions.beyond(self.number, past)
    }

    fn first(&self, relation: u16) -> Option<&Tuple> {
        self.versions.first(self.number, relation)
    }

    fn after(&self, tuple: &Tuple) -> Option<&Tuple> {
        self.versions.after(self.number, tuple)
    }

    fn scan(
        &self,
        relation: u16,
        column: u16,
        value: &Value,
        past: Option<&Tuple>,
    ) -> Option<&Tuple> {
        self.versions
            .scan(self.number, relation, column, value, past)
    }

    fn candidates(
        &self,
        relation: u16,
        column: Option<Column<'_>>,
        past: Option<&Tuple>,
    ) -> Candidates<'_> {
        self.versions
            .candidates(self.number, relation, column, past)
    }

    fn holding(&self, name: OuterName, past: Option<&Tuple>) -> Option<&Tuple> {
        self.versions.holding(self.number, name, past)
    }

    fn values(&self, relation: u16, column: u16) -> Option<&[Value]> {
        self.versions.values(self.number, relation, column)
    }
}
