//! Whether a tuple has a given outer form.
ghost use Rattle.std.specs.Prelude.{◌≡◌, ◌↔◌, map, IsTrue};
ghost use Rattle.def_chase.specs.Values.{outer_datum, outer, same_datum, same_fact};
ghost use Rattle.base_types.specs.Meanings.{datum_of, fact_of};
ghost use Rattle.def_steps.specs.Questions.{is_outer_of};

use base_types::{Tuple, TupleList, Value};

/// Whether the form is the tuple's outer form, which is the tuple with attempt 0 in each null. A form with another attempt is the
/// outer form of no tuple.
pub fn is_outer_form(tuple: &Tuple, form: &Tuple) -> bool
    ensures answer { result ≡ same_fact (outer (fact_of tuple.now)) (fact_of form.now) }
{
    if tuple.relation != form.relation {
        return false;
    }
    are_outer_forms(tuple.values.as_slice(), form.values.as_slice())
}

/// Whether the form is the outer form of one of the tuples.
pub fn has_outer_form(tuples: &TupleList, form: &Tuple) -> bool
    ensures answer { result ≡ is_outer_of (map fact_of tuples.now.items) (fact_of form.now) }
{
    tuples
        .as_slice()
        .iter()
        .any(|tuple| is_outer_form(tuple, form))
}

// Whether there are as many values as forms, and each value has the outer form at its place.
fn are_outer_forms(values: &[Value], forms: &[Value]) -> bool
    ensures answer { IsTrue result ↔ (map (λ v. outer_datum (datum_of v)) values.now ≡
        map datum_of forms.now) }
{
    if values.len() != forms.len() {
        return false;
    }
    values
        .iter()
        .zip(forms)
        .all(|(value, form)| is_outer_value(value, form))
}

// Whether the form is the value's outer form.
fn is_outer_value(value: &Value, form: &Value) -> bool
    ensures answer { result ≡ same_datum (outer_datum (datum_of value.now)) (datum_of form.now) }
{
    match (value, form) {
        (Value::Null(null), Value::Null(told)) => {
            null.update == told.update && told.attempt == 0 && null.place == told.place
        }
        (Value::Null(_), Value::Int(_)) => false,
        (Value::Null(_), Value::Word(_)) => false,
        (Value::Int(i), Value::Int(j)) => i == j,
        (Value::Int(_), Value::Word(_)) => false,
        (Value::Int(_), Value::Null(_)) => false,
        (Value::Word(_), Value::Int(_)) => false,
        (Value::Word(v), Value::Word(w)) => v.cmp(w).is_eq(),
        (Value::Word(_), Value::Null(_)) => false,
    }
}
