//! The questions at a frontier of the chase, and the answers that fit them.
ghost use Rattle.std.specs.Prelude.{◌≡◌, map, IfOk};
ghost use Rattle.std.specs.List.{list_all};
ghost use Rattle.base_types.specs.Meanings.{fact_of, choice_of};
ghost use Rattle.def_steps.specs.Attempts.{Question as Asked};
ghost use Rattle.def_steps.specs.Questions.{is_outer_of, fits_positive, fits_negative, fits as fits_asked};
ghost use Rattle.chase_question.specs.Inquiries.{Inquiry, inquiry_of, inquiry_in, fits_inquiry};

use crate::outer_forms::has_outer_form;
use base_types::{Choice, Memory, TryCopy, Tuple, TupleList};
use std::alloc::Global;

/// A question of the chase. A positive one has the violated mapping's number, the generated tuple, and the candidates: the tuples
/// of the view that are more specific. A negative one has the violated mapping's number and the different tuples of its left
/// side, of which at least one must be deleted.
#[derive(Debug, Drop)]
pub enum Question {
    Positive {
        mapping: u16,
        tuple: Tuple,
        candidates: TupleList,
    },
    Negative {
        mapping: u16,
        tuples: TupleList,
    },
}

impl TryCopy for Question {
    ghost Meaning = { Inquiry };

    ghost meaning = { inquiry_of };

    fn copy(&self, alloc: Global) -> Result<Question, Memory>
        ensures same { IfOk result (λ copy. inquiry_of copy ≡ inquiry_of self.now) }
    {
        match self {
            Question::Positive {
                mapping,
                tuple,
                candidates,
            } => Ok(Question::Positive {
                mapping: *mapping,
                tuple: tuple.copy(alloc)?,
                candidates: candidates.copy(alloc)?,
            }),
            Question::Negative { mapping, tuples } => Ok(Question::Negative {
                mapping: *mapping,
                tuples: tuples.copy(alloc)?,
            }),
        }
    }
}

/// Whether the answer fits the question. `Expand` fits a positive question, as does `Unify` with the outer form of a candidate.
/// `Delete` of at least one of its tuples, each named by its outer form, fits a negative one; a repeated tuple counts once.
pub fn fits(question: &Question, choice: &Choice) -> bool
    ensures answer { result ≡ fits_inquiry (inquiry_of question.now) (choice_of choice.now) }
    ensures asked { (q : Asked) → inquiry_in q ≡ inquiry_of question.now →
        result ≡ fits_asked q (choice_of choice.now) }
{
    match question {
        Question::Positive { candidates, .. } => fits_candidates(candidates, choice),
        Question::Negative { tuples, .. } => fits_tuples(tuples, choice),
    }
}

// Whether the answer fits a positive question with these candidates.
fn fits_candidates(candidates: &TupleList, choice: &Choice) -> bool
    ensures answer { result ≡ fits_positive (map fact_of candidates.now.items)
        (choice_of choice.now) }
{
    match choice {
        Choice::Expand => true,
        Choice::Unify(form) => has_outer_form(candidates, form),
        Choice::Delete(_) => false,
    }
}

// Whether the answer fits a negative question with these tuples.
fn fits_tuples(tuples: &TupleList, choice: &Choice) -> bool
    ensures answer { result ≡ fits_negative (map fact_of tuples.now.items) (choice_of choice.now) }
{
    match choice {
        Choice::Expand => false,
        Choice::Unify(_) => false,
        Choice::Delete(forms) => !forms.is_empty() && all_are_outer_forms(tuples, forms),
    }
}

// Whether each of the forms is the outer form of one of the tuples.
fn all_are_outer_forms(tuples: &TupleList, forms: &TupleList) -> bool
    ensures answer { result ≡ list_all (is_outer_of (map fact_of tuples.now.items))
        (map fact_of forms.now.items) }
{
    forms
        .as_slice()
        .iter()
        .all(|form| has_outer_form(tuples, form))
}
