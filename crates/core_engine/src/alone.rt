//! A step above which no update has read anything: its writes are put in place, and no update restarts.
ghost use Rattle.std.specs.Prelude.{◌≡◌, [], false, IsTrue, IfOk, OnErr};
ghost use Rattle.core_queue.specs.Programs.{HasSpent, IsBetween};
ghost use Rattle.core_engine.specs.Steps.{HasHidden, IsPreparedAlone};

use crate::aftermaths::Aftermath;
use crate::stepping::{Prepared, copied, hides};
use base_types::Memory;
use chase_plan::Plan;
use chase_update::Attempt;
use core_entries::CauseList;
use core_queue::{QueuedUpdate, has_spent};
use set_versions::Versions;
use std::alloc::Global;

/// Whether no update above has read anything (`readers` of them may have) and the attempt has not ended spent or refused.
pub(crate) fn is_alone(readers: usize, program: &Attempt) -> bool
    requires between { IsBetween program.now }
    ensures unread { IsTrue result → readers ≡ 0 }
    ensures shown { IsTrue result → HasHidden program.now false }
    ensures unspent { IsTrue result → HasSpent program.now false }
{
    if readers != 0 {
        return false;
    }
    if hides(program) {
        return false;
    }
    !has_spent(program)
}

/// What the step of the plan leaves if none of the updates above has read anything. Last its writes go into the versions; on an
/// error the versions are unchanged.
pub(crate) fn prepare_alone(
    alloc: Global,
    versions: &mut Versions,
    item: &QueuedUpdate,
    plan: &Plan,
) -> Result<Prepared, Memory>
    requires between { IsBetween item.now.program }
    requires after { IsBetween plan.now.program }
    requires shown { HasHidden plan.now.program false }
    requires unspent { HasSpent plan.now.program false }
    ensures prepared { IfOk result (IsPreparedAlone versions.old item.now plan.now versions.new) }
    ensures fresh { IfOk result (λ p. p.left.fresh.items ≡ []) }
    ensures err { OnErr result (versions.new ≡ versions.old) }
{
    let written = item.written(plan);
    let writes = copied(alloc, written)?;
    versions.publish(alloc, item.number(), written)?;
    Ok(Prepared {
        writes,
        left: Aftermath {
            fresh: Vec::new(alloc),
            causes: CauseList::new(alloc),
        },
    })
}
