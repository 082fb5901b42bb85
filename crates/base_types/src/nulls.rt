//! Labelled nulls, their order, and the names that people give them.
ghost use Rattle.std.specs.Prelude.{◌≡◌, refl};
ghost use Rattle.std.specs.Ordering.{on, as_partial_cmp, eq_by_cmp};
ghost use Rattle.std.specs.Cmp.{on_total, eq_by_cmp_equiv, partial_equiv_from_equiv, po};
ghost use Rattle.def_chase.specs.Values.{null_cmp};
ghost use Rattle.base_types.specs.Meanings.{null_of, outer_null_of};
ghost use Rattle.def_chase.proofs.Order.{null_total};

use std::cmp::Ordering;

/// A labelled null: the update that drew it, by which attempt, and at which place among that attempt's nulls.
/// Nulls are ordered by update, then place, then attempt.
#[derive(Clone, Copy, Debug)]
pub struct Null {
    pub update: u32,
    pub attempt: u32,
    pub place: u32,
}

/// A null as people name it, `?u.k`: the update that drew it, and its place among the nulls of its attempt. The attempt that drew
/// it does not count.
#[derive(Clone, Copy, Debug)]
pub struct OuterName {
    pub update: u32,
    pub place: u32,
}

impl Null {
    /// The name that people give it.
    pub fn outer_name(self) -> OuterName
        ensures update { result.update ≡ self.update }
        ensures place { result.place ≡ self.place }
    {
        OuterName {
            update: self.update,
            place: self.place,
        }
    }
}

impl OuterName {
    /// The null that the written name stands for: that of attempt 0.
    pub fn null(self) -> Null
        ensures null { null_of result ≡ outer_null_of self }
    {
        Null {
            update: self.update,
            attempt: 0,
            place: self.place,
        }
    }
}

impl PartialEq for Null {
    ghost eq = { eq_by_cmp (on null_of null_cmp) };

    ghost laws = { partial_equiv_from_equiv (eq_by_cmp_equiv (on_total null_of null_total)) };

    fn eq(&self, other: &Null) -> bool {
        self.cmp(other).is_eq()
    }
}

impl Eq for Null {
    ghost laws = { eq_by_cmp_equiv (on_total null_of null_total) };
}

impl PartialOrd for Null {
    ghost partial_cmp = { as_partial_cmp (on null_of null_cmp) };

    ghost laws = { po (on_total null_of null_total) (λ _ _. refl) };

    fn partial_cmp(&self, other: &Null) -> Option<Ordering> {
        Some(self.cmp(other))
    }
}

impl Ord for Null {
    ghost cmp = { on null_of null_cmp };

    ghost total = { on_total null_of null_total };

    ghost matches_partial_cmp = { λ _ _. refl };

    ghost matches_eq = { λ _ _. refl };

    fn cmp(&self, other: &Null) -> Ordering {
        let by_place = self.place.cmp(&other.place);
        let by_attempt = self.attempt.cmp(&other.attempt);
        self.update
            .cmp(&other.update)
            .then(by_place.then(by_attempt))
    }
}
