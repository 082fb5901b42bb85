//! What draws an unknown, and whether two causes or two questions are the same.
ghost use Rattle.std.specs.Prelude.{◌≡◌, map, IfOk};
ghost use Rattle.std.specs.Cmp.Lexicographic.{pointwise};
ghost use Rattle.def_chase.specs.Values.{same_fact};
ghost use Rattle.base_types.specs.Meanings.{fact_of};
ghost use Rattle.ws_lines.specs.Meanings.{asked_of, source_of};
ghost use Rattle.def_workspace.specs.Places.{Cause as CauseMeant, same_cause, same_source};
ghost use Rattle.def_workspace.specs.Runs.{same_asked};
ghost use Rattle.ws_names.specs.Meanings.{cause_of};

use base_types::{Memory, TryCopy, TupleList};
use std::alloc::Global;
use ws_lines::{Asked, Source};

/// The cause of an unknown: a mapping (`source`), one of its variables, and the image of its left side, by names.
#[derive(Drop)]
pub struct Cause {
    pub source: Source,
    pub variable: u16,
    pub image: TupleList,
}

impl Cause {
    /// Whether both are the same cause.
    pub fn is(&self, other: &Cause) -> bool
        ensures same { result ≡ same_cause (cause_of self.now) (cause_of other.now) }
    {
        let is_same_source = is_same(self.source, other.source);
        let is_same_variable = self.variable == other.variable;
        let is_same_image = are_same(&self.image, &other.image);
        is_same_source && is_same_variable && is_same_image
    }
}

/// Whether both are the same question.
pub fn is_same_question(one: &Asked, other: &Asked) -> bool
    ensures same { result ≡ same_asked (asked_of one.now) (asked_of other.now) }
{
    let is_same_source = is_same(one.source, other.source);
    let are_same_tuples = are_same(&one.tuples, &other.tuples);
    is_same_source && are_same_tuples
}

fn is_same(one: Source, other: Source) -> bool
    ensures same { result ≡ same_source (source_of one) (source_of other) }
{
    match (one, other) {
        (Source::By(one), Source::By(other)) => one == other,
        (Source::Fix(one), Source::Fix(other)) => one == other,
        (Source::Draw, Source::Draw) => true,
        _ => false,
    }
}

#[tactic(auto, using(crate::proofs::Images::same_images))]
fn are_same(one: &TupleList, other: &TupleList) -> bool
    ensures same { result ≡
        pointwise same_fact (map fact_of one.now.items) (map fact_of other.now.items) }
{
    one == other
}

impl TryCopy for Cause {
    ghost Meaning = { CauseMeant };

    ghost meaning = { cause_of };

    fn copy(&self, alloc: Global) -> Result<Cause, Memory>
        ensures same { IfOk result (λ copy. cause_of copy ≡ cause_of self.now) }
    {
        Ok(Cause {
            source: self.source,
            variable: self.variable,
            image: self.image.copy(alloc)?,
        })
    }
}
