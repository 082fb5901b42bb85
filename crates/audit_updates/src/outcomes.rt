//! The state of an attempt between two steps: how it ended, what it asks, and which of its writes it shows.
ghost use Rattle.std.specs.Prelude.{◌≡◌};
ghost use Rattle.std.specs.Option.{option_map, option_copied};
ghost use Rattle.chase_question.specs.Inquiries.{inquiry_of};
ghost use Rattle.chase_update.specs.PointMeanings.{end_of, want_of};
ghost use Rattle.audit_updates.specs.Programs.{IsBetween, HasAsked, HasEnded, HasSpent, HasShown, end_wished, inquiry_wished, is_spent_end, hides_end};

use base_types::Write;
use chase_question::Question;
use chase_update::{Attempt, Outcome, Want};

/// How the attempt ended, if it did.
pub fn outcome(program: &Attempt) -> Option<Outcome>
    requires between { IsBetween program.now }
    ensures ended { HasEnded program.now (option_map end_of result) }
{
    outcome_in(program.wants())
}

/// The question that the attempt is at, if it is at one.
pub fn asked(program: &Attempt) -> Option<&Question>
    requires between { IsBetween program.now }
    ensures asked { HasAsked program.now (option_map inquiry_of (option_copied result)) }
{
    question_in(program.wants())
}

/// Whether the attempt ended because its budget of steps was used up.
pub fn has_spent(program: &Attempt) -> bool
    requires between { IsBetween program.now }
    ensures spent { HasSpent program.now result }
{
    is_spent(outcome(program))
}

/// The writes that the attempt shows to others: its own, or none if it ended spent or refused.
pub fn shown(program: &Attempt) -> &[Write]
    requires between { IsBetween program.now }
    ensures shown { HasShown program.now result.now }
{
    if hides(outcome(program)) {
        &[]
    } else {
        program.own().as_slice()
    }
}

// How an attempt ended, by what it wants.
fn outcome_in(want: Want<'_>) -> Option<Outcome>
    ensures ended { option_map end_of result ≡ end_wished (want_of want.entry) }
{
    match want {
        Want::Ended(outcome) => Some(outcome),
        Want::Read(_) => None,
        Want::Choice(_) => None,
        Want::NextStep => None,
    }
}

// The question that an attempt asks, by what it wants.
fn question_in<'a>(want: Want<'a>) -> Option<&'a Question>
    ensures asked { option_map inquiry_of (option_copied result) ≡
        inquiry_wished (want_of want.entry) }
{
    match want {
        Want::Choice(question) => Some(question),
        Want::Read(_) => None,
        Want::Ended(_) => None,
        Want::NextStep => None,
    }
}

// Whether the attempt ended because its budget was used up.
fn is_spent(outcome: Option<Outcome>) -> bool
    ensures spent { result ≡ is_spent_end (option_map end_of outcome) }
{
    matches!(outcome, Some(Outcome::Spent))
}

// Whether an attempt with this end, or with none, hides its writes.
fn hides(outcome: Option<Outcome>) -> bool
    ensures hidden { result ≡ hides_end (option_map end_of outcome) }
{
    match outcome {
        Some(Outcome::Spent) => true,
        Some(Outcome::Refused { .. }) => true,
        Some(Outcome::Done) => false,
        None => false,
    }
}
