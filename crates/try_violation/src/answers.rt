//! The first violations of a mapping in each scope.
ghost use Rattle.std.specs.Prelude.{◌≡◌, IfOk};
ghost use Rattle.std.specs.Option.{option_map};
ghost use Rattle.def_chase.specs.Violations.{first_violation as first_violation_def, Every, Caused, Forward, Backward};
ghost use Rattle.base_types.specs.Meanings.{rule_of};
ghost use Rattle.chase_violation.specs.Scopes.{first_in};
ghost use Rattle.base_types.specs.Contents.{changes_of, facts_of};

use base_types::{Facts, Mapping, Memory, TupleList, WriteList};
use chase_violation::{Scope, first_violation};
use std::alloc::Global;

/// The least image of a violation among all violations, among those that own writes caused forward, and among those that they
/// caused backward; None if there is no such violation.
#[derive(Debug, Drop, PartialEq)]
pub struct Answers {
    pub all: Option<TupleList>,
    pub forward: Option<TupleList>,
    pub backward: Option<TupleList>,
}

impl Answers {
    /// The answers over a set of tuples.
    pub fn over<F: Facts>(
        alloc: Global,
        mapping: &Mapping,
        own: &WriteList,
        facts: &F,
    ) -> Result<Answers, Memory>
        ensures all { IfOk result (λ answers. option_map facts_of answers.all ≡
            first_violation_def Every (changes_of own.now) (rule_of mapping.now)
            (F.tuples facts.now)) }
        ensures forward { IfOk result (λ answers. option_map facts_of answers.forward ≡
            first_violation_def (Caused Forward) (changes_of own.now) (rule_of mapping.now)
            (F.tuples facts.now)) }
        ensures backward { IfOk result (λ answers. option_map facts_of answers.backward ≡
            first_violation_def (Caused Backward) (changes_of own.now) (rule_of mapping.now)
            (F.tuples facts.now)) }
    {
        let all = first_image(alloc, mapping, facts, Scope::All)?;
        let forward = first_image(alloc, mapping, facts, Scope::Forward(own))?;
        let backward = first_image(alloc, mapping, facts, Scope::Backward(own))?;
        Ok(Answers {
            all,
            forward,
            backward,
        })
    }
}

// The image of the first violation in the scope.
fn first_image<F: Facts>(
    alloc: Global,
    mapping: &Mapping,
    facts: &F,
    scope: Scope<'_>,
) -> Result<Option<TupleList>, Memory>
    ensures image { IfOk result (λ found. option_map facts_of found ≡
        first_in scope.entry (rule_of mapping.now) (F.tuples facts.now)) }
{
    match first_violation(alloc, mapping, facts, scope)? {
        Some(violation) => Ok(Some(violation.image)),
        None => Ok(None),
    }
}
