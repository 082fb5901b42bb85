//! The repository that the committed updates left.
ghost use Rattle.std.specs.Prelude.{◌≡◌, suc, IfOk};
ghost use Rattle.base_types.specs.Contents.{facts_of};
ghost use Rattle.core_result.specs.Told.{AreAnswered};
ghost use Rattle.set_versions.specs.Standing.{seen};

use base_types::{FORCE_RELATION, Memory, TupleList};
use set_versions::Versions;
use std::alloc::Global;

/// The tuples that the update of this number sees, in order and in outer form.
pub(crate) fn repository(
    alloc: Global,
    versions: &Versions,
    number: u32,
) -> Result<TupleList, Memory>
    ensures answered { IfOk result (AreAnswered (seen number versions.now)) }
{
    let mut sweep = versions.below(number).sweep();
    let mut forms = TupleList::new(alloc);
    forms.reserve(versions.base_len().saturating_add(versions.rows_len()))?;
    while let Some(tuple) = sweep.next() {
        if tuple.relation != FORCE_RELATION {
            forms.push(tuple.outer(alloc)?)?;
        }
    }
    Ok(forms)
}
