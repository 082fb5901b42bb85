//! Copies of a repair.
ghost use Rattle.std.specs.Prelude.{◌≡◌, IfOk};
ghost use Rattle.def_steps.specs.Attempts.{Repair as RepairMeant};
ghost use Rattle.chase_repair.specs.Repairs.{Gathering as GatheringMeant};
ghost use Rattle.chase_repair.specs.Stages.{repair_of, gathering_of, repairing_of, IsSound};
ghost use Rattle.chase_repair.specs.declared.stages.Generation.{Generation as GenerationOfProgram};

use crate::boxing::boxed;
use crate::stages::{Gathering, Generation, Stage};
use base_types::{Memory, TryCopy};
use std::alloc::Global;

impl TryCopy for Generation {
    ghost Meaning = { RepairMeant };

    ghost meaning = { repair_of };

    fn copy(&self, alloc: Global) -> Result<Generation, Memory>
        ensures same { IfOk result (λ copy. repair_of copy ≡ repair_of self.now) }
    {
        Ok(Generation {
            mapping: self.mapping,
            binding: self.binding.copy(alloc)?,
            atom: self.atom,
        })
    }
}

impl TryCopy for Gathering {
    ghost Meaning = { GatheringMeant };

    ghost meaning = { gathering_of };

    fn copy(&self, alloc: Global) -> Result<Gathering, Memory>
        ensures same { IfOk result (λ copy. gathering_of copy ≡ gathering_of self.now) }
    {
        Ok(Gathering {
            sub: self.sub.copy(alloc)?,
            query: self.query.copy(alloc)?,
            later: Vec::from_slice(alloc, self.later.as_slice())?,
            found: self.found.copy(alloc)?,
        })
    }
}

/// A copy of the stage, which means the same as the stage for any repair in hand.
pub(crate) fn copy_stage(alloc: Global, stage: &Stage) -> Result<Stage, Memory>
    ensures same { IfOk result (λ copy. (g : GenerationOfProgram) →
        repairing_of g copy ≡ repairing_of g stage.now) }
    ensures sound { IfOk result (λ copy. (g : GenerationOfProgram) → IsSound g stage.now →
        IsSound g copy) }
{
    match stage {
        Stage::Generating => Ok(Stage::Generating),
        Stage::Querying(query) => Ok(Stage::Querying(query.copy(alloc)?)),
        Stage::Waiting(question) => Ok(Stage::Waiting(boxed(alloc, question.copy(alloc)?)?)),
        Stage::Unifying(question, gathering) => {
            let asked = boxed(alloc, question.copy(alloc)?)?;
            let gathered = boxed(alloc, gathering.copy(alloc)?)?;
            Ok(Stage::Unifying(asked, gathered))
        }
        Stage::Repaired => Ok(Stage::Repaired),
    }
}
