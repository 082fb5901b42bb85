//! The step of an answer `Unify`: it finds the tuples that hold the moved nulls, and rewrites them by the unifier.
ghost use Rattle.std.specs.Prelude.{◌≡◌, ◌<◌, ◌++◌, false, length, map, IfOk, OnOk, OnErr};
ghost use Rattle.base_types.specs.Contents.{changes_of, facts_of};
ghost use Rattle.base_types.specs.Meanings.{fact_of};
ghost use Rattle.base_types.specs.Maps.{images_of, moved_by};
ghost use Rattle.def_steps.specs.Rewriting.{in_order, rewrite as rewrite_def, next_atom};
ghost use Rattle.chase_repair.specs.Repairs.{phase_of, is_asking, moved_repair};
ghost use Rattle.chase_repair.specs.Stages.{repair_of, gathering_of, repairing_of, HasKept, IsSound};

use crate::answers::copies;
use crate::generating::go_on;
use crate::ordering::{listed, put_copies};
use crate::rewriting::rewrite;
use crate::stages::{Gathering, Generation, Stage};
use crate::writes::append;
use base_limits::Mappings;
use base_types::{List, Memory, Sub, Tuple, TupleList, WriteList};
use chase_query::Query;
use chase_unifier::apply_row;
use std::alloc::Global;
use std::collections::BTreeSet;

/// Keeps the tuples that were found, and asks for the next null. If it is refused, the step is unchanged.
pub(crate) fn ask_next(
    alloc: Global,
    gathering: &mut Gathering,
    tuples: &[Tuple],
) -> Result<(), Memory>
    requires { 0 < length gathering.old.later.items }
    ensures ok { OnOk result (HasKept gathering.old (map fact_of tuples.now) gathering.new) }
    ensures err { OnErr result (gathering_of gathering.new ≡ gathering_of gathering.old) }
{
    gathering.found.push(copies(alloc, tuples)?)?;
    let null = gathering.later.remove(0);
    gathering.query = Query::Occurs(null.outer_name());
    Ok(())
}

/// The tuples found in the step, together with the last ones, in order.
pub(crate) fn all_found(
    alloc: Global,
    gathering: &Gathering,
    last: &[Tuple],
) -> Result<TupleList, Memory>
    ensures value { IfOk result (λ list.
        facts_of list ≡ in_order ((gathering_of gathering.now).found ++ map fact_of last.now)) }
{
    let mut set = BTreeSet::new(alloc);
    for tuples in gathering.found.as_slice() {
        put_copies(alloc, &mut set, tuples.as_slice())?;
    }
    put_copies(alloc, &mut set, last)?;
    listed(alloc, set)
}

/// The end of the step: applies the unifier to the tuples, by writes at the end of the own ones, and to the values of the repair
/// in hand. If it is refused, the repair in hand and the own writes are unchanged.
pub(crate) fn unify(
    alloc: Global,
    generation: &mut Generation,
    own: &mut WriteList,
    sub: &Sub,
    tuples: &TupleList,
    mappings: &Mappings<'_>,
) -> Result<Stage, Memory>
    ensures writes { OnOk result (
        changes_of own.new ≡ changes_of own.old ++
        rewrite_def (moved_by (images_of sub.now)) (facts_of tuples.now)) }
    ensures phase { IfOk result (λ stage. phase_of (repairing_of generation.new stage) ≡
        next_atom mappings.now
        (moved_repair (moved_by (images_of sub.now)) (repair_of generation.old))) }
    ensures rests { IfOk result (λ stage. is_asking (repairing_of generation.new stage) ≡ false) }
    ensures sound { IfOk result (λ stage. IsSound generation.new stage) }
    ensures err { OnErr result (generation.new ≡ generation.old) }
    ensures own { OnErr result (own.new.items ≡ own.old.items) }
{
    let writes = rewrite(alloc, sub, tuples)?;
    let binding = apply_row(alloc, sub, generation.binding.as_slice())?;
    append(alloc, own, writes)?;
    generation.binding = binding;
    Ok(go_on(generation, mappings))
}
