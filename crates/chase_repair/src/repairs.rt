//! The repair of one violation, which asks queries and questions and takes their answers.
ghost use Rattle.std.specs.Prelude.{◌≡◌, ◌+◌, ◌<◌, ◌^◌, true, false, List, IfOk, OnOk, OnErr};
ghost use Rattle.def_chase.specs.Mappings.{Rule};
ghost use Rattle.base_types.specs.Contents.{facts_of};
ghost use Rattle.base_types.specs.Meanings.{choice_of, rule_of};
ghost use Rattle.chase_query.specs.Meanings.{reply_of};
ghost use Rattle.chase_repair.specs.Repairs.{phase_of, is_asking, tree_in};
ghost use Rattle.chase_repair.specs.Stands.{wanted, WantsStep, TakesReply, TakesChoice, query_in, first_query};
ghost use Rattle.chase_repair.specs.Meanings.{want_of};
ghost use Rattle.chase_repair.specs.Transitions.{AsksAs, HasAnswered, HasBegun, HasChosen, IsBackward, IsForward};

use crate::answering::answered;
use crate::choosing::chosen;
use crate::copying::copy_stage;
use crate::fresh::{Fresh, values_at};
use crate::generating::generated;
use crate::looking::look_back;
use crate::ordering::in_order;
use crate::stages::{Generation, Stage};
use crate::wants::{Progress, RepairWant};
use base_limits::Mappings;
use base_types::{Choice, Mapping, Memory, TryCopy, TupleList, ValueList, WriteList};
use chase_query::{Query, Reply};
use std::alloc::Global;
use std::marker::Model;

/// The repair of one violation, as a value. A forward repair generates the right atoms in turn; a backward one asks which tuples
/// to delete. Contracts see its state as a `Repairing`.
#[derive(Debug, Drop)]
pub struct Repair {
    pub(crate) generation: Generation,
    pub(crate) stage: Stage,
}

impl Model for Repair {
    ghost use Rattle.chase_repair.specs.Repairs.{Repairing};

    ghost Value = { Repairing };

    ghost use Rattle.chase_repair.specs.Stages.{repairing_of, IsSound};

    ghost view = { λ r. repairing_of r.generation r.stage };

    ghost invariant = { λ r. IsSound r.generation r.stage };
}

impl Repair {
    /// The repair of a violation by insertions: the variables on the left have their values at the image, each existential one is
    /// a fresh null, and the right atoms will be generated in turn. `number` is the mapping's. A look of an attempt that draws
    /// from `fresh` makes this repair, and draws one null for each existential variable of the mapping.
    pub fn forward(
        alloc: Global,
        number: u16,
        mapping: &Mapping,
        image: &TupleList,
        fresh: Fresh,
    ) -> Result<Repair, Memory>
        requires { fresh.drawn + (rule_of mapping.now).existential < 2 ^ 32 }
        ensures look { IfOk result
            (IsForward fresh number (rule_of mapping.now) (facts_of image.now)) }
        ensures rests { IfOk result (λ made. wanted made ≡ WantsStep) }
    {
        Ok(Repair {
            generation: Generation {
                mapping: number,
                binding: values_at(alloc, mapping, image, fresh)?,
                atom: 0,
            },
            stage: Stage::Generating,
        })
    }

    /// The repair of a violation by deletions, and the writes of the look that makes it: a single tuple of the image is deleted
    /// at once. If there are several, a person is asked which to delete, in a question that has the mapping's number.
    pub fn backward(
        alloc: Global,
        number: u16,
        image: &TupleList,
    ) -> Result<(Repair, WriteList), Memory>
        ensures look { IfOk result (λ made. IsBackward number (facts_of image.now) made.0 made.1) }
        ensures rests { IfOk result (λ made. is_asking made.0 ≡ false) }
    {
        let generation = Generation {
            mapping: number,
            binding: ValueList::new(alloc),
            atom: 0,
        };
        let (stage, writes) = look_back(alloc, number, in_order(alloc, image)?)?;
        Ok((Repair { generation, stage }, writes))
    }

    /// Begins the next step, which then asks a query. If it is refused, the repair is unchanged.
    pub fn begin(&mut self, alloc: Global, mappings: &Mappings<'_>) -> Result<(), Memory>
        requires { wanted self.old ≡ WantsStep }
        ensures step { OnOk result (HasBegun mappings.now self.old self.new) }
        ensures asks { OnOk result (is_asking self.new ≡ true) }
        ensures phase { phase_of self.new ≡ phase_of self.old }
        ensures err { OnErr result (self.new ≡ self.old) }
    {
        let tuple = generated(alloc, &self.generation, mappings)?;
        self.stage = Stage::Querying(Query::Present(tuple));
        Ok(())
    }

    /// Takes the answer to the step's query, and goes on with it. A step that ends adds its writes to the end of the own ones. If
    /// it is refused, the repair and the own writes are unchanged.
    pub fn answer(
        &mut self,
        alloc: Global,
        own: &mut WriteList,
        answer: &Reply,
        mappings: &Mappings<'_>,
    ) -> Result<Progress, Memory>
        requires { TakesReply mappings.now (wanted self.old) (reply_of answer.now) }
        ensures step { IfOk result
            (HasAnswered mappings.now answer.now own.old self.old own.new self.new) }
        ensures asks { IfOk result (AsksAs self.new) }
        ensures err { OnErr result (self.new ≡ self.old) }
        ensures own { OnErr result (own.new.items ≡ own.old.items) }
    {
        answered(
            alloc,
            &mut self.generation,
            &mut self.stage,
            own,
            answer,
            mappings,
        )
    }

    /// Takes the answer to the question, which must fit it, and makes the step of the answer up to its first query or its end. A
    /// step that ends adds its writes to the end of the own ones. If it is refused, the repair and the own writes are unchanged.
    pub fn choose(
        &mut self,
        alloc: Global,
        own: &mut WriteList,
        choice: &Choice,
        mappings: &Mappings<'_>,
    ) -> Result<Progress, Memory>
        requires { TakesChoice (wanted self.old) (choice_of choice.now) }
        ensures step { IfOk result
            (HasChosen mappings.now choice.now own.old self.old own.new self.new) }
        ensures asks { IfOk result (AsksAs self.new) }
        ensures err { OnErr result (self.new ≡ self.old) }
        ensures own { OnErr result (own.new.items ≡ own.old.items) }
    {
        chosen(
            alloc,
            &mut self.generation,
            &mut self.stage,
            own,
            choice,
            mappings,
        )
    }

    /// What the repair wants next. If that is a query, it is the first one that the step under way still asks.
    pub fn wants(&self) -> RepairWant<'_>
        ensures want { want_of result ≡ wanted self.now }
        ensures query { (ms : List Rule) →
            first_query (tree_in ms self.now) ≡ query_in (want_of result) }
    {
        match &self.stage {
            Stage::Generating => RepairWant::NextStep,
            Stage::Querying(query) => RepairWant::Query(query),
            Stage::Waiting(question) => RepairWant::Question(&**question),
            Stage::Unifying(_, gathering) => RepairWant::Query(&gathering.query),
            Stage::Repaired => RepairWant::Finished,
        }
    }
}

impl TryCopy for Repair {
    ghost use Rattle.chase_repair.specs.Repairs.{Repairing};

    ghost Meaning = { Repairing };

    ghost meaning = { λ r. r };

    fn copy(&self, alloc: Global) -> Result<Repair, Memory>
        ensures same { IfOk result (λ copy. copy ≡ self.now) }
    {
        Ok(Repair {
            generation: self.generation.copy(alloc)?,
            stage: copy_stage(alloc, &self.stage)?,
        })
    }
}
