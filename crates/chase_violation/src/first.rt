//! The first violation of a mapping, and whether it holds.
ghost use Rattle.std.specs.Prelude.{◌≡◌, Some, IfOk, IfSome};
ghost use Rattle.std.specs.Bool.{Decides};
ghost use Rattle.std.specs.Option.{option_map};
ghost use Rattle.def_chase.specs.Mappings.{Holds};
ghost use Rattle.def_chase.specs.Matching.{nothing_known};
ghost use Rattle.base_types.specs.Meanings.{rule_of};
ghost use Rattle.chase_violation.specs.Scopes.{Binds, first_in};
ghost use Rattle.base_types.specs.Contents.{facts_of};
ghost use Rattle.chase_violation.specs.First.{Knows};

use crate::caused::first_caused;
use crate::scope::Scope;
use crate::unmet::first_unmet;
use base_types::{Direction, Facts, Mapping, Memory, TupleList};
use chase_match::{Matched, PartialMatch};
use std::alloc::Global;

/// The violation that counts whose image is least, compared tuple by tuple; None exactly if none counts. A violation is a match
/// of the left side that no match of the right side extends; its binding has the variables of the left side.
pub fn first_violation<F: Facts>(
    alloc: Global,
    mapping: &Mapping,
    facts: &F,
    scope: Scope<'_>,
) -> Result<Option<Matched>, Memory>
    ensures image { IfOk result (λ found. option_map (λ v. facts_of v.image) found ≡
        first_in scope.entry (rule_of mapping.now) (F.tuples facts.now)) }
    ensures binding { IfOk result (λ found. IfSome found (Binds (rule_of mapping.now))) }
{
    match first_in_scope(alloc, mapping, facts, scope)? {
        Some(partial) => Ok(Some(partial.to_matched(alloc)?)),
        None => Ok(None),
    }
}

/// The image of the violation that `first_violation` finds.
pub fn first_image<F: Facts>(
    alloc: Global,
    mapping: &Mapping,
    facts: &F,
    scope: Scope<'_>,
) -> Result<Option<TupleList>, Memory>
    ensures image { IfOk result (λ found. option_map facts_of found ≡
        first_in scope.entry (rule_of mapping.now) (F.tuples facts.now)) }
{
    match first_in_scope(alloc, mapping, facts, scope)? {
        Some(partial) => Ok(Some(partial.to_image(alloc)?)),
        None => Ok(None),
    }
}

// The first violation that counts. It borrows the tuples and values of the facts.
fn first_in_scope<'a, F: Facts>(
    alloc: Global,
    mapping: &Mapping,
    facts: &'a F,
    scope: Scope<'a>,
) -> Result<Option<PartialMatch<'a>>, Memory>
    ensures image { IfOk result (λ found. option_map (λ q. q.image) found ≡
        first_in scope.entry (rule_of mapping.now) (F.tuples facts.now)) }
    ensures known { IfOk result (λ found.
        IfSome found (Knows (rule_of mapping.now).left nothing_known)) }
{
    match scope {
        Scope::All => first_unmet(PartialMatch::new(alloc), mapping, facts),
        Scope::Forward(own) => first_caused(alloc, mapping, Direction::Forward, own, facts),
        Scope::Backward(own) => first_caused(alloc, mapping, Direction::Backward, own, facts),
    }
}

/// Whether the mapping holds in the facts: it has no violation there.
pub fn holds<F: Facts>(alloc: Global, mapping: &Mapping, facts: &F) -> Result<bool, Memory>
    ensures decides { IfOk result (λ answer.
        Decides answer (Holds (rule_of mapping.now) (F.tuples facts.now))) }
{
    let first = first_in_scope(alloc, mapping, facts, Scope::All)?;
    Ok(first.is_none())
}
