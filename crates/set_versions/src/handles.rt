//! A tuple as a key of trees, which share it, with the rank that decides most comparisons.
ghost use Rattle.std.specs.Prelude.{◌≡◌, refl};
ghost use Rattle.std.specs.Ordering.{on, as_partial_cmp, eq_by_cmp};
ghost use Rattle.std.specs.Cmp.{on_total, eq_by_cmp_equiv, partial_equiv_from_equiv, po};
ghost use Rattle.def_chase.specs.Values.{fact_cmp};
ghost use Rattle.base_types.specs.Meanings.{fact_of};
ghost use Rattle.def_chase.proofs.Order.{fact_total};
ghost use Rattle.set_versions.specs.Ranks.{rank_of};

use crate::ranks::rank;
use base_tree::Share;
use base_types::Tuple;
use std::alloc::AllocError;
use std::cmp::Ordering;
use std::marker::Model;

/// A handle to a tuple. Contracts see the tuple.
#[derive(Drop)]
pub struct Handle {
    rank: u64,
    tuple: Tuple,
}

impl Model for Handle {
    ghost use Rattle.base_types.specs.declared.tuples.Tuple.{Tuple};

    ghost Value = { Tuple };

    ghost use Rattle.std.specs.Prelude.{◌≡◌};
    ghost use Rattle.base_types.specs.Meanings.{fact_of};
    ghost use Rattle.set_versions.specs.Ranks.{rank_of};

    ghost view = { λ h. h.tuple };

    ghost invariant = { λ h. h.rank ≡ rank_of (fact_of h.tuple) };
}

impl Handle {
    /// A handle to the tuple.
    pub fn new(tuple: Tuple) -> Handle
        ensures same { result ≡ tuple }
    {
        Handle {
            rank: rank(&tuple),
            tuple,
        }
    }

    /// The rank of the tuple.
    pub fn rank(&self) -> u64
        ensures rank { result ≡ rank_of (fact_of self.now) }
    {
        self.rank
    }

    /// The tuple.
    pub fn get(&self) -> &Tuple
        ensures { result.now ≡ self.now }
    {
        &self.tuple
    }
}

impl Share for Handle {
    fn share(&self) -> Result<Handle, AllocError> {
        match self.tuple.share() {
            Ok(tuple) => Ok(Handle {
                rank: self.rank,
                tuple,
            }),
            Err(_) => Err(AllocError),
        }
    }
}

impl PartialEq for Handle {
    ghost eq = { eq_by_cmp (on fact_of fact_cmp) };

    ghost laws = { partial_equiv_from_equiv (eq_by_cmp_equiv (on_total fact_of fact_total)) };

    fn eq(&self, other: &Handle) -> bool {
        self.cmp(other).is_eq()
    }
}

impl Eq for Handle {
    ghost laws = { eq_by_cmp_equiv (on_total fact_of fact_total) };
}

impl PartialOrd for Handle {
    ghost partial_cmp = { as_partial_cmp (on fact_of fact_cmp) };

    ghost laws = { po (on_total fact_of fact_total) (λ _ _. refl) };

    fn partial_cmp(&self, other: &Handle) -> Option<Ordering> {
        Some(self.cmp(other))
    }
}

impl Ord for Handle {
    ghost cmp = { on fact_of fact_cmp };

    ghost total = { on_total fact_of fact_total };

    ghost matches_partial_cmp = { λ _ _. refl };

    ghost matches_eq = { λ _ _. refl };

    fn cmp(&self, other: &Handle) -> Ordering {
        match self.rank.cmp(&other.rank) {
            Ordering::Less => Ordering::Less,
            Ordering::Equal => self.tuple.cmp(&other.tuple),
            Ordering::Greater => Ordering::Greater,
        }
    }
}
