//! Values, their order, their hashes, and their copies.
ghost use Rattle.std.specs.Prelude.{◌≡◌, refl, IfOk};
ghost use Rattle.std.proofs.Common.{ap};
ghost use Rattle.std.specs.Ordering.{on, as_partial_cmp, eq_by_cmp};
ghost use Rattle.std.specs.Cmp.{Equal-is, on_total, eq_by_cmp_equiv, partial_equiv_from_equiv, po};
ghost use Rattle.def_chase.specs.Values.{Datum, datum_cmp};
ghost use Rattle.base_types.specs.Meanings.{datum_of};
ghost use Rattle.base_types.specs.Hashed.{fed_of};
ghost use Rattle.def_chase.proofs.Order.{datum_exact, datum_total};

use crate::copying::TryCopy;
use crate::lists::Word;
use crate::nulls::Null;
use def_memory::Memory;
use std::alloc::Global;
use std::cmp::Ordering;
use std::hash::{Hash, Hasher};

/// A value: a number, a word, or a labelled null. Numbers come before words, and words, by their bytes, before
/// nulls. Different nulls are different values.
#[derive(Debug, Drop)]
pub enum Value {
    Int(i64),
    Word(Word),
    Null(Null),
}

impl PartialEq for Value {
    ghost eq = { eq_by_cmp (on datum_of datum_cmp) };

    ghost laws = { partial_equiv_from_equiv (eq_by_cmp_equiv (on_total datum_of datum_total)) };

    fn eq(&self, other: &Value) -> bool {
        match (self, other) {
            (Value::Int(i), Value::Int(j)) => i == j,
            (Value::Word(v), Value::Word(w)) => v == w,
            (Value::Null(m), Value::Null(n)) => m == n,
            _ => false,
        }
    }
}

impl Eq for Value {
    ghost laws = { eq_by_cmp_equiv (on_total datum_of datum_total) };
}

impl PartialOrd for Value {
    ghost partial_cmp = { as_partial_cmp (on datum_of datum_cmp) };

    ghost laws = { po (on_total datum_of datum_total) (λ _ _. refl) };

    fn partial_cmp(&self, other: &Value) -> Option<Ordering> {
        Some(self.cmp(other))
    }
}

impl Ord for Value {
    ghost cmp = { on datum_of datum_cmp };

    ghost total = { on_total datum_of datum_total };

    ghost matches_partial_cmp = { λ _ _. refl };

    ghost matches_eq = { λ _ _. refl };

    fn cmp(&self, other: &Value) -> Ordering {
        match (self, other) {
            (Value::Int(i), Value::Int(j)) => i.cmp(j),
            (Value::Int(_), Value::Word(_)) => Ordering::Less,
            (Value::Int(_), Value::Null(_)) => Ordering::Less,
            (Value::Word(_), Value::Int(_)) => Ordering::Greater,
            (Value::Word(v), Value::Word(w)) => v.cmp(w),
            (Value::Word(_), Value::Null(_)) => Ordering::Less,
            (Value::Null(_), Value::Int(_)) => Ordering::Greater,
            (Value::Null(_), Value::Word(_)) => Ordering::Greater,
            (Value::Null(m), Value::Null(n)) => m.cmp(n),
        }
    }
}

impl Hash for Value {
    ghost hash_input = { λ v. fed_of (datum_of v) };

    ghost respects_eq = { λ v w e.
        ap fed_of (datum_exact (datum_of v) (datum_of w) ((Equal-is (datum_cmp (datum_of v)
        (datum_of w))).0 e)) };

    fn hash<H: Hasher>(&self, state: &mut H) {
        match self {
            Value::Int(number) => state.write_i64(*number),
            Value::Word(word) => state.write(word.as_slice()),
            Value::Null(null) => {
                state.write_u32(null.update);
                state.write_u32(null.place);
            }
        }
    }
}

impl TryCopy for Value {
    ghost Meaning = { Datum };

    ghost meaning = { datum_of };

    fn copy(&self, alloc: Global) -> Result<Value, Memory>
        ensures same { IfOk result (λ copy. datum_of copy ≡ datum_of self.now) }
    {
        match self {
            Value::Int(number) => Ok(Value::Int(*number)),
            Value::Word(word) => Ok(Value::Word(word.copy(alloc)?)),
            Value::Null(null) => Ok(Value::Null(*null)),
        }
    }
}
