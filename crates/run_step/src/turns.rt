//! What a program between two steps does next.
ghost use Rattle.std.specs.Prelude.{◌≡◌};
ghost use Rattle.std.specs.Option.{option_map, option_copied};
ghost use Rattle.chase_question.specs.Inquiries.{inquiry_of};
ghost use Rattle.base_types.specs.Meanings.{choice_of};
ghost use Rattle.chase_update.specs.Wishes.{wish};
ghost use Rattle.run_step.specs.Turns.{at_question, next_by};
ghost use Rattle.run_step.specs.Meanings.{next_of};
ghost use Rattle.base_types.specs.Contents.{choices_of};

use base_types::{Choice, ChoiceList};
use chase_question::{Question, fits};
use chase_update::{Attempt, Lack, Want};

/// What comes next: a step, with the answer if the program is at a question; or a rest, because it has ended or because
/// something is lacking.
#[derive(Clone, Copy)]
pub enum Next<'a> {
    Step(Option<&'a Choice>),
    Rest(Option<Lack>),
}

/// What comes next, given all answers.
pub fn what_next<'a>(program: &Attempt, answers: &'a ChoiceList) -> Next<'a>
    ensures next { next_of result ≡ next_by (wish program.now) program.now.attempt.taken
        (choices_of answers.now) }
{
    match program.wants() {
        Want::Read(_) => Next::Step(None),
        Want::Choice(question) => answered(question, answers.get(program.taken() as usize)),
        Want::Ended(_) => Next::Rest(None),
        Want::NextStep => Next::Step(None),
    }
}

// What comes next at the question, with the next answer if there is one.
fn answered<'a>(question: &Question, choice: Option<&'a Choice>) -> Next<'a>
    ensures next { next_of result ≡ at_question (inquiry_of question.now)
        (option_map choice_of (option_copied choice.entry)) }
{
    match choice {
        Some(choice) => if fits(question, choice) {
            Next::Step(Some(choice))
        } else {
            Next::Rest(Some(Lack::Misfit))
        },
        None => Next::Rest(Some(Lack::Missing)),
    }
}
