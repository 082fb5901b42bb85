//! A step goes on with the answer to its query.
ghost use Rattle.std.specs.Prelude.{◌≡◌, IfOk, OnErr};
ghost use Rattle.chase_query.specs.Meanings.{reply_of};
ghost use Rattle.chase_repair.specs.Stands.{wanted, TakesReply};
ghost use Rattle.chase_repair.specs.Stages.{repairing_of, IsSound, SameRepair};
ghost use Rattle.chase_repair.specs.Transitions.{AsksAs, HasAnswered};

use crate::answers::{is_yes, tuples_of};
use crate::comparing::{compared, taken};
use crate::generating::go_on;
use crate::stages::{Generation, Stage};
use crate::unifying::{all_found, ask_next, unify};
use crate::wants::Progress;
use base_limits::Mappings;
use base_types::{Memory, WriteList};
use chase_query::{Query, Reply};
use std::alloc::Global;

/// Goes on with the answer to the query of this stage. A step that ends adds its writes to the end of the own ones. If it is
/// refused, the repair and the own writes are unchanged.
pub(crate) fn answered(
    alloc: Global,
    generation: &mut Generation,
    stage: &mut Stage,
    own: &mut WriteList,
    answer: &Reply,
    mappings: &Mappings<'_>,
) -> Result<Progress, Memory>
    requires fits { IsSound generation.old stage.old }
    requires reply { TakesReply mappings.now
        (wanted (repairing_of generation.old stage.old)) (reply_of answer.now) }
    ensures step { IfOk result (HasAnswered mappings.now answer.now
        own.old (repairing_of generation.old stage.old)
        own.new (repairing_of generation.new stage.new)) }
    ensures asks { IfOk result (AsksAs (repairing_of generation.new stage.new)) }
    ensures sound { IsSound generation.new stage.new }
    ensures err { OnErr result (SameRepair generation.old stage.old generation.new stage.new) }
    ensures own { OnErr result (own.new.items ≡ own.old.items) }
{
    match stage {
        Stage::Querying(Query::Present(tuple)) => {
            if is_yes(answer) {
                *stage = go_on(generation, mappings);
                Ok(Progress::Ends)
            } else {
                *stage = Stage::Querying(Query::Specific(taken(tuple)));
                Ok(Progress::Asks)
            }
        }
        Stage::Querying(Query::Specific(tuple)) => {
            *stage = compared(alloc, generation, own, tuple, tuples_of(answer), mappings)?;
            Ok(Progress::Ends)
        }
        Stage::Unifying(_, gathering) => {
            let tuples = tuples_of(answer);
            if gathering.later.is_empty() {
                let all = all_found(alloc, &**gathering, tuples)?;
                *stage = unify(alloc, generation, own, &gathering.sub, &all, mappings)?;
                Ok(Progress::Ends)
            } else {
                ask_next(alloc, &mut **gathering, tuples)?;
                Ok(Progress::Asks)
            }
        }
        _ => unreachable!(),
    }
}
