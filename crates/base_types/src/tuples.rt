//! Tuples, their order, their copies, and their outer forms.
ghost use Rattle.std.specs.Prelude.{◌≡◌, [], refl, map, IfOk};
ghost use Rattle.std.specs.Ordering.{on, as_partial_cmp, eq_by_cmp};
ghost use Rattle.std.specs.Cmp.{on_total, eq_by_cmp_equiv, partial_equiv_from_equiv, po};
ghost use Rattle.def_chase.specs.Values.{Fact, fact_cmp};
ghost use Rattle.base_types.specs.Meanings.{datum_of, fact_of};
ghost use Rattle.def_chase.proofs.Order.{fact_total};

use crate::copying::TryCopy;
use crate::lists::List;
use crate::rows::{Row, ValueList};
use def_memory::Memory;
use std::alloc::Global;
use std::cmp::Ordering;

/// The relation of the tuples that say which mappings are in force.
pub const FORCE_RELATION: u16 = 65535;

/// Tuples.
pub type TupleList = List<Tuple>;

/// A tuple: the number of its relation and its values by column. Tuples are ordered by relation, then value by
/// value.
#[derive(Debug, Drop)]
pub struct Tuple {
    pub relation: u16,
    pub values: Row,
}

impl Tuple {
    /// The tuple of the relation with these values.
    pub fn new(alloc: Global, relation: u16, values: ValueList) -> Result<Tuple, Memory>
        ensures tuple { IfOk result (λ tuple. fact_of tuple ≡
            record { relation = relation; values = map datum_of values.items }) }
    {
        Ok(Tuple {
            relation,
            values: Row::new(alloc, values)?,
        })
    }

    /// Another handle to the same tuple. It is refused only if there are too many handles already.
    pub fn share(&self) -> Result<Tuple, Memory>
        ensures same { IfOk result (λ tuple. tuple ≡ self.now) }
    {
        Ok(Tuple {
            relation: self.relation,
            values: self.values.share()?,
        })
    }

    /// The tuple of the relation without values, which is its least one.
    pub fn least(relation: u16) -> Tuple
        ensures least { fact_of result ≡ record { relation = relation; values = [] } }
    {
        Tuple {
            relation,
            values: Row::empty(),
        }
    }
}

impl PartialEq for Tuple {
    ghost eq = { eq_by_cmp (on fact_of fact_cmp) };

    ghost laws = { partial_equiv_from_equiv (eq_by_cmp_equiv (on_total fact_of fact_total)) };

    fn eq(&self, other: &Tuple) -> bool {
        self.cmp(other).is_eq()
    }
}

impl Eq for Tuple {
    ghost laws = { eq_by_cmp_equiv (on_total fact_of fact_total) };
}

impl PartialOrd for Tuple {
    ghost partial_cmp = { as_partial_cmp (on fact_of fact_cmp) };

    ghost laws = { po (on_total fact_of fact_total) (λ _ _. refl) };

    fn partial_cmp(&self, other: &Tuple) -> Option<Ordering> {
        Some(self.cmp(other))
    }
}

impl Ord for Tuple {
    ghost cmp = { on fact_of fact_cmp };

    ghost total = { on_total fact_of fact_total };

    ghost matches_partial_cmp = { λ _ _. refl };

    ghost matches_eq = { λ _ _. refl };

    fn cmp(&self, other: &Tuple) -> Ordering {
        match self.relation.cmp(&other.relation) {
            Ordering::Less => Ordering::Less,
            Ordering::Equal => self.values.order(&other.values),
            Ordering::Greater => Ordering::Greater,
        }
    }
}

impl TryCopy for Tuple {
    ghost Meaning = { Fact };

    ghost meaning = { fact_of };

    fn copy(&self, _alloc: Global) -> Result<Tuple, Memory>
        ensures same { IfOk result (λ copy. fact_of copy ≡ fact_of self.now) }
    {
        self.share()
    }
}
