//! The tuples that are still to be explained, on the way from the last step to the first.
ghost use Rattle.std.specs.Prelude.{◌≡◌, not, if◌then◌else◌, filter, map, IfOk, OnOk};
ghost use Rattle.def_chase.specs.Repository.{Delete, Insert, IsRepository, apply, change, has};
ghost use Rattle.base_types.specs.Contents.{facts_of};
ghost use Rattle.base_types.specs.Meanings.{fact_of};
ghost use Rattle.def_provenance.specs.Reasons.{premises};
ghost use Rattle.run_explain.specs.ReasonMeanings.{how_of};

use crate::reasons::How;
use base_types::{Memory, TryCopy, Tuple, TupleList};
use set_facts::PlainFacts;
use std::alloc::Global;

/// Takes these tuples out of what is sought, and returns the tuples that were there, in order. On an error some of them may be
/// taken out.
pub(crate) fn take_out(
    alloc: Global,
    sought: &mut PlainFacts,
    tuples: TupleList,
) -> Result<TupleList, Memory>
    requires sorted { IsRepository sought.old }
    ensures taken { IfOk result (λ taken.
        facts_of taken ≡ filter (has (facts_of tuples)) sought.old) }
    ensures left { OnOk result (sought.new ≡
        filter (λ t. not (has (facts_of tuples) t)) sought.old) }
{
    let mut taken = PlainFacts::new(alloc);
    for tuple in tuples.into_vec() {
        take_one(sought, &mut taken, tuple)?;
    }
    let list = taken.into_list(alloc)?;
    Ok(list)
}

// Takes the tuple out of what is sought, if it is there, and adds it to the tuples that were taken.
fn take_one(sought: &mut PlainFacts, taken: &mut PlainFacts, tuple: Tuple) -> Result<(), Memory>
    ensures left { OnOk result (sought.new ≡ change sought.old (Delete (fact_of tuple))) }
    ensures taken { OnOk result (taken.new ≡
        (if has sought.old (fact_of tuple)
        then change taken.old (Insert (fact_of tuple)) else taken.old)) }
{
    if sought.remove(&tuple) {
        taken.insert(tuple)?;
    }
    Ok(())
}

/// Seeks also what this rests on. On an error some of it may be sought.
pub(crate) fn seek(alloc: Global, sought: &mut PlainFacts, how: &How) -> Result<(), Memory>
    ensures sought { OnOk result (sought.new ≡
        apply sought.old (map Insert (premises (how_of how.now)))) }
{
    match how {
        How::Base => Ok(()),
        How::Inserted { .. } => Ok(()),
        How::Generated { image, .. } => seek_all(alloc, sought, image.as_slice()),
        How::Rewritten { from, .. } => {
            sought.insert(from.copy(alloc)?)?;
            Ok(())
        }
    }
}

// Seeks also these tuples.
fn seek_all(alloc: Global, sought: &mut PlainFacts, tuples: &[Tuple]) -> Result<(), Memory>
    ensures sought { OnOk result
        (sought.new ≡ apply sought.old (map Insert (map fact_of tuples.now))) }
{
    for tuple in tuples {
        sought.insert(tuple.copy(alloc)?)?;
    }
    Ok(())
}
