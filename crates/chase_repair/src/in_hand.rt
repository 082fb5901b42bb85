//! The parts of a forward repair in hand that others see: its mapping with the values of its variables, the image of its
//! violation, and the unifier of an answer to its question.
ghost use Rattle.std.specs.Prelude.{◌≡◌, map, IfOk};
ghost use Rattle.std.specs.Option.{option_map};
ghost use Rattle.def_chase.specs.Mappings.{image_under, listed};
ghost use Rattle.def_chase.specs.Updates.{Unify};
ghost use Rattle.base_types.specs.Meanings.{datum_of, fact_of, pattern_of};
ghost use Rattle.base_types.specs.Maps.{images_of, moved_by};
ghost use Rattle.chase_repair.specs.Bound.{bound_in, unifier_in};
ghost use Rattle.chase_repair.specs.BoundMeanings.{bound_of};
ghost use Rattle.chase_repair.specs.Repairs.{phase_of};
ghost use Rattle.chase_repair.specs.Stages.{IsSound, repair_of, repairing_of};
ghost use Rattle.chase_repair.specs.Stands.{wanted, TakesChoice};

use crate::generating::tuple_under;
use crate::planning::plan;
use crate::repairs::Repair;
use crate::stages::{Generation, Stage};
use base_types::{AtomList, Memory, Sub, Tuple, TupleList, ValueList};
use chase_question::Question;
use std::alloc::Global;

/// The number of a mapping, and the values of its variables.
#[derive(Clone, Copy)]
pub struct Bound<'a> {
    pub mapping: u16,
    pub values: &'a ValueList,
}

impl Repair {
    /// The mapping and the values of its variables; None exactly if no forward repair is in hand.
    pub fn bound(&self) -> Option<Bound<'_>>
        ensures bound { option_map bound_of result ≡ bound_in (phase_of self.now) }
    {
        match &self.stage {
            Stage::Generating => Some(bound_by(&self.generation)),
            Stage::Querying(_) => Some(bound_by(&self.generation)),
            Stage::Waiting(question) => match &**question {
                Question::Positive { .. } => Some(bound_by(&self.generation)),
                Question::Negative { .. } => None,
            },
            Stage::Unifying(_, _) => Some(bound_by(&self.generation)),
            Stage::Repaired => None,
        }
    }

    /// The unifier of the generated tuple in question and the candidate with this outer form. The form must fit the question.
    pub fn unifier_with(&self, alloc: Global, form: &Tuple) -> Result<Sub, Memory>
        requires { TakesChoice (wanted self.now) (Unify (fact_of form.now)) }
        ensures unifier { IfOk result
            (λ sub. moved_by (images_of sub) ≡ unifier_in (phase_of self.now) (fact_of form.now)) }
    {
        unifier_at(alloc, &self.generation, &self.stage, form)
    }
}

// The unifier of the generated tuple in question at this stage and the candidate with this outer form.
fn unifier_at(
    alloc: Global,
    generation: &Generation,
    stage: &Stage,
    form: &Tuple,
) -> Result<Sub, Memory>
    requires fits { IsSound generation.now stage.now }
    requires choice { TakesChoice (wanted (repairing_of generation.now stage.now))
        (Unify (fact_of form.now)) }
    ensures unifier { IfOk result
        (λ sub. moved_by (images_of sub) ≡
        unifier_in (phase_of (repairing_of generation.now stage.now)) (fact_of form.now)) }
{
    match stage {
        Stage::Waiting(question) => match &**question {
            Question::Positive {
                tuple,
                candidates,
                ..
            } => {
                let (sub, _) = plan(alloc, tuple, candidates, form)?;
                Ok(sub)
            }
            _ => unreachable!(),
        },
        _ => unreachable!(),
    }
}

// The mapping of a generation and the values of its variables.
fn bound_by(generation: &Generation) -> Bound<'_>
    ensures bound { bound_of result ≡
        record {
          mapping = (repair_of generation.now).mapping;
          values =
              (repair_of generation.now).binding;
        } }
{
    Bound {
        mapping: generation.mapping,
        values: &generation.binding,
    }
}

/// The image of the atoms under the values of the variables.
pub fn image(alloc: Global, values: &ValueList, atoms: &AtomList) -> Result<TupleList, Memory>
    ensures image { IfOk result
        (λ tuples. map fact_of tuples.items ≡
        image_under (listed (map datum_of values.now.items)) (map pattern_of atoms.now.items)) }
{
    let mut tuples = TupleList::new(alloc);
    tuples.reserve(atoms.len())?;
    for atom in atoms.as_slice() {
        tuples.push(tuple_under(alloc, values, atom)?)?;
    }
    Ok(tuples)
}
