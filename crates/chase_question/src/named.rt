//! The tuples of a question that an answer names by their outer forms.
ghost use Rattle.std.specs.Prelude.{◌≡◌, map, find, is_some, unwrap_or, IfOk};
ghost use Rattle.std.specs.List.{list_any};
ghost use Rattle.std.specs.Option.{option_map, option_copied};
ghost use Rattle.def_chase.specs.Values.{Fact, outer, same_fact};
ghost use Rattle.base_types.specs.Meanings.{fact_of};
ghost use Rattle.def_steps.specs.Questions.{is_outer_of, named, candidate as chosen_candidate};

use crate::outer_forms::is_outer_form;
use base_types::{List, Memory, TryCopy, Tuple, TupleList};
use std::alloc::Global;

/// The candidate that an answer `Unify` names: the first one with the outer form. None exactly if no candidate has it, so that
/// the answer does not fit.
pub fn candidate<'a>(candidates: &'a TupleList, form: &Tuple) -> Option<&'a Tuple>
    ensures found { option_map fact_of (option_copied result) ≡
        find (λ s. same_fact (outer s) (fact_of form.now)) (map fact_of candidates.now.items) }
    ensures fitting { is_some (option_copied result) ≡
        is_outer_of (map fact_of candidates.now.items) (fact_of form.now) }
    ensures chosen { (t : Fact) → unwrap_or (option_map fact_of (option_copied result)) t ≡
        chosen_candidate t (map fact_of candidates.now.items) (fact_of form.now) }
{
    candidates
        .as_slice()
        .iter()
        .find(|candidate| is_outer_form(candidate, form))
}

/// Whether the tuple's outer form is among the forms.
pub fn is_named(tuple: &Tuple, forms: &TupleList) -> bool
    ensures answer { result ≡ list_any (same_fact (outer (fact_of tuple.now)))
        (map fact_of forms.now.items) }
{
    forms
        .as_slice()
        .iter()
        .any(|form| is_outer_form(tuple, form))
}

/// Copies of the tuples whose outer forms are among the forms, in the order of the tuples.
pub fn named_tuples(
    alloc: Global,
    tuples: &TupleList,
    forms: &TupleList,
) -> Result<TupleList, Memory>
    ensures value { IfOk result (λ list. map fact_of list.items ≡
        named (map fact_of tuples.now.items) (map fact_of forms.now.items)) }
{
    let mut list = List::new(alloc);
    for tuple in tuples.as_slice() {
        if is_named(tuple, forms) {
            list.push(tuple.copy(alloc)?)?;
        }
    }
    Ok(list)
}
