//! Outer forms: people see of a null its update and its place, but not its attempt.
ghost use Rattle.std.specs.Prelude.{◌≡◌, ◌↔◌, map, IsTrue, IfOk};
ghost use Rattle.def_chase.specs.Queries.{holds_null as holds_null_def, is_named as is_named_def};
ghost use Rattle.def_chase.specs.Values.{outer_datum, outer, same_datum, same_fact};
ghost use Rattle.base_types.specs.Meanings.{datum_of, fact_of};

use crate::copying::TryCopy;
use crate::lists::List;
use crate::nulls::{Null, OuterName};
use crate::tuples::Tuple;
use crate::values::Value;
use def_memory::Memory;
use std::alloc::Global;

impl Value {
    /// The outer form: the same value, with attempt 0 in a null.
    pub fn outer(&self, alloc: Global) -> Result<Value, Memory>
        ensures same { IfOk result (λ form. datum_of form ≡ outer_datum (datum_of self.now)) }
    {
        match self {
            Value::Int(number) => Ok(Value::Int(*number)),
            Value::Word(word) => Ok(Value::Word(word.copy(alloc)?)),
            Value::Null(null) => Ok(Value::Null(Null {
                update: null.update,
                attempt: 0,
                place: null.place,
            })),
        }
    }

    /// Whether the two have the same outer form.
    pub fn outer_eq(&self, other: &Value) -> bool
        ensures answer { result ≡ same_datum (outer_datum (datum_of self.now))
            (outer_datum (datum_of other.now)) }
    {
        match (self, other) {
            (Value::Null(m), Value::Null(n)) => m.update == n.update && m.place == n.place,
            (Value::Null(_), Value::Int(_)) => false,
            (Value::Null(_), Value::Word(_)) => false,
            (Value::Int(i), Value::Int(j)) => i == j,
            (Value::Int(_), Value::Word(_)) => false,
            (Value::Int(_), Value::Null(_)) => false,
            (Value::Word(_), Value::Int(_)) => false,
            (Value::Word(v), Value::Word(w)) => v.cmp(w).is_eq(),
            (Value::Word(_), Value::Null(_)) => false,
        }
    }

    /// Whether it is a null of this name.
    pub fn is_named(&self, name: OuterName) -> bool
        ensures answer { result ≡ is_named_def name.update name.place (datum_of self.now) }
    {
        match self {
            Value::Null(null) => null.update == name.update && null.place == name.place,
            Value::Int(_) => false,
            Value::Word(_) => false,
        }
    }
}

impl Tuple {
    /// The outer form: the same tuple, with attempt 0 in each null. If the tuple is its own outer form, its values are shared.
    pub fn outer(&self, alloc: Global) -> Result<Tuple, Memory>
        ensures same { IfOk result (λ form. fact_of form ≡ outer (fact_of self.now)) }
    {
        if are_outer(self.values.as_slice()) {
            let same = self.share()?;
            return Ok(same);
        }
        self.renamed(alloc)
    }

    // The outer form, whose values are a new row.
    fn renamed(&self, alloc: Global) -> Result<Tuple, Memory>
        ensures same { IfOk result (λ form. fact_of form ≡ outer (fact_of self.now)) }
    {
        let mut values = List::new(alloc);
        values.reserve(self.values.len())?;
        for value in self.values.as_slice() {
            values.push(value.outer(alloc)?)?;
        }
        Tuple::new(alloc, self.relation, values)
    }

    /// Whether the two have the same outer form.
    pub fn outer_eq(&self, other: &Tuple) -> bool
        ensures answer { result ≡ same_fact (outer (fact_of self.now)) (outer (fact_of other.now)) }
    {
        if self.relation != other.relation {
            return false;
        }
        are_outer_eq(self.values.as_slice(), other.values.as_slice())
    }

    /// Whether it holds a null of this name.
    pub fn holds_null(&self, name: OuterName) -> bool
        ensures answer { result ≡ holds_null_def name.update name.place (fact_of self.now) }
    {
        self.values
            .as_slice()
            .iter()
            .any(|value| value.is_named(name))
    }
}

// Whether each value is its own outer form.
fn are_outer(values: &[Value]) -> bool
    ensures outer { IsTrue result →
        (map outer_datum (map datum_of values.now) ≡ map datum_of values.now) }
{
    for value in values {
        if !is_outer(value) {
            return false;
        }
    }
    true
}

// Whether the value is its own outer form.
fn is_outer(value: &Value) -> bool
    ensures outer { IsTrue result → (outer_datum (datum_of value.now) ≡ datum_of value.now) }
{
    match value {
        Value::Null(null) => null.attempt == 0,
        Value::Int(_) => true,
        Value::Word(_) => true,
    }
}

// Whether both have the same number of values, with the same outer forms place by place.
fn are_outer_eq(values: &[Value], others: &[Value]) -> bool
    ensures answer { IsTrue result ↔
        (map (λ v. outer_datum (datum_of v)) values.now ≡
        map (λ v. outer_datum (datum_of v)) others.now) }
{
    if values.len() != others.len() {
        return false;
    }
    values
        .iter()
        .zip(others)
        .all(|(value, other)| value.outer_eq(other))
}
