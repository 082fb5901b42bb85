//! The writes of a step, and which tuples they put.
ghost use Rattle.std.specs.Prelude.{◌≡◌, ◌≤◌, not, drop, filter, length, map, IfOk, OnOk};
ghost use Rattle.def_chase.specs.Repository.{has};
ghost use Rattle.base_types.specs.Contents.{changes_of, facts_of};
ghost use Rattle.base_types.specs.Meanings.{change_of, fact_of};
ghost use Rattle.def_provenance.specs.Puts.{inserted as inserted_def, deleted as deleted_def};
ghost use Rattle.chase_query.specs.Meanings.{reply_of};
ghost use Rattle.def_steps.specs.Steps.{is_yes as is_yes_def};
ghost use Rattle.run_note.specs.Steps.{is_so, seen_in};

use base_types::{Memory, TryCopy, Tuple, TupleList, Write, WriteList};
use chase_eval::WatchedView;
use chase_query::{Query, Reply};
use set_facts::IndexedFacts;
use std::alloc::Global;

/// The own writes after the first `seen`.
pub(crate) fn latest(own: &WriteList, seen: usize) -> &[Write]
    requires some { seen ≤ length own.now.items }
    ensures latest { map change_of result.now ≡ drop seen (changes_of own.now) }
{
    &own.as_slice()[seen..]
}

/// The tuples that the writes insert and that are not seen in the view.
pub(crate) fn absent(
    alloc: Global,
    view: &mut WatchedView<'_, IndexedFacts>,
    writes: &[Write],
) -> Result<TupleList, Memory>
    ensures absent { IfOk result (λ tuples. facts_of tuples ≡
        filter (λ t. not (has (seen_in view.old) t)) (inserted_def (map change_of writes.now))) }
    ensures same { view.new ≡ view.old }
{
    those(alloc, view, inserted(alloc, writes)?, false)
}

/// The tuples of the list that are seen in the view.
pub(crate) fn present(
    alloc: Global,
    view: &mut WatchedView<'_, IndexedFacts>,
    tuples: TupleList,
) -> Result<TupleList, Memory>
    ensures present { IfOk result (λ those. facts_of those ≡
        filter (has (seen_in view.old)) (facts_of tuples)) }
    ensures same { view.new ≡ view.old }
{
    those(alloc, view, tuples, true)
}

// The tuples of the list that are seen in the view, or the others.
fn those(
    alloc: Global,
    view: &mut WatchedView<'_, IndexedFacts>,
    tuples: TupleList,
    seen: bool,
) -> Result<TupleList, Memory>
    ensures those { IfOk result (λ those. facts_of those ≡
        filter (λ t. is_so seen (has (seen_in view.old) t)) (facts_of tuples)) }
    ensures same { view.new ≡ view.old }
{
    let mut those = TupleList::new(alloc);
    for tuple in tuples.into_vec() {
        if is_wanted(alloc, view, &tuple, seen)? {
            those.push(tuple)?;
        }
    }
    Ok(those)
}

// Whether the tuple is seen in the view, or whether it is not seen, as `seen` wants.
fn is_wanted(
    alloc: Global,
    view: &mut WatchedView<'_, IndexedFacts>,
    tuple: &Tuple,
    seen: bool,
) -> Result<bool, Memory>
    ensures wanted { IfOk result (λ wanted.
        wanted ≡ is_so seen (has (seen_in view.old) (fact_of tuple.now))) }
    ensures same { view.new ≡ view.old }
{
    let there = is_seen(alloc, view, tuple)?;
    Ok(if seen { there } else { !there })
}

// Whether the tuple is seen in the view.
#[tactic(auto, using(crate::proofs::Writing::seen_by))]
fn is_seen(
    alloc: Global,
    view: &mut WatchedView<'_, IndexedFacts>,
    tuple: &Tuple,
) -> Result<bool, Memory>
    ensures seen { IfOk result (λ seen. seen ≡ has (seen_in view.old) (fact_of tuple.now)) }
    ensures same { view.new ≡ view.old }
{
    let query = Query::Present(tuple.copy(alloc)?);
    let answer = view.eval(&query, alloc)?;
    Ok(is_yes(&answer))
}

// Whether the answer is yes.
fn is_yes(answer: &Reply) -> bool
    ensures answer { result ≡ is_yes_def (reply_of answer.now) }
{
    matches!(answer, Reply::Yes)
}

// The tuples that the writes insert, in order.
fn inserted(alloc: Global, writes: &[Write]) -> Result<TupleList, Memory>
    ensures inserted { IfOk result
        (λ tuples. facts_of tuples ≡ inserted_def (map change_of writes.now)) }
{
    let mut tuples = TupleList::new(alloc);
    for write in writes {
        match write {
            Write::Insert(tuple) => tuples.push(tuple.copy(alloc)?)?,
            Write::Delete(_) => {}
        }
    }
    Ok(tuples)
}

/// The tuples that the writes delete, in order.
pub(crate) fn deleted(alloc: Global, writes: &[Write]) -> Result<TupleList, Memory>
    ensures deleted { IfOk result
        (λ tuples. facts_of tuples ≡ deleted_def (map change_of writes.now)) }
{
    let mut tuples = TupleList::new(alloc);
    for write in writes {
        match write {
            Write::Delete(tuple) => tuples.push(tuple.copy(alloc)?)?,
            Write::Insert(_) => {}
        }
    }
    Ok(tuples)
}
