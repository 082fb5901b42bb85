//! Sets of relations, a bit for each.

ghost use Rattle.std.specs.Prelude.{◌≡◌, ℕ, ◌<◌, ◌||◌, ◌==◌, false};
ghost use Rattle.std.specs.Int.RustNames.{bit_or};
ghost use Rattle.lang_checks.specs.Tables.{among};

/// A set of relations with numbers below 128.
#[derive(Clone, Copy)]
pub(crate) struct RelationSet {
    bits: u128,
}

impl RelationSet {
    /// The set without relations.
    pub(crate) fn empty() -> RelationSet
        ensures empty { (r : ℕ) → among result r ≡ false }
    {
        RelationSet { bits: 0 }
    }

    /// Whether the relation is in the set.
    pub(crate) fn has(self, relation: u16) -> bool
        requires { relation < 128 }
        ensures has { result ≡ among self relation }
    {
        (self.bits >> relation) & 1 == 1
    }

    /// The set with one more relation. A number from 128 on adds no relation.
    pub(crate) fn with(self, relation: u16) -> RelationSet
        ensures with { (r : ℕ) → r < 128 → among result r ≡ (among self r || relation == r) }
    {
        if 128 <= relation {
            return self;
        }
        RelationSet {
            bits: self.bits | (1 << relation),
        }
    }

    /// The relations of both sets.
    pub(crate) fn joined(self, other: RelationSet) -> RelationSet
        ensures bits { result.bits ≡ bit_or self.bits other.bits }
        ensures joined { (r : ℕ) → among result r ≡ (among self r || among other r) }
    {
        RelationSet {
            bits: self.bits | other.bits,
        }
    }
}
