//! The violations that count at a query, and the first of them.
ghost use Rattle.std.specs.Prelude.{◌≡◌, ◌||◌, [], ◌∷◌, map, pos, IfOk};
ghost use Rattle.std.specs.Bool.{Decides};
ghost use Rattle.std.specs.List.{list_any};
ghost use Rattle.std.specs.Option.{option_map, option_copied};
ghost use Rattle.def_chase.specs.Values.{Number, same_fact};
ghost use Rattle.def_chase.specs.Repository.{inserts};
ghost use Rattle.def_chase.specs.Mappings.{force};
ghost use Rattle.def_chase.specs.Queries.{scope_at as scope_at_def};
ghost use Rattle.base_types.specs.Meanings.{datum_of, fact_of, change_of, rule_of};
ghost use Rattle.chase_query.specs.Meanings.{reply_of};
ghost use Rattle.chase_eval.specs.Counted.{scope_meant, CountsAs, reply_in};
ghost use Rattle.chase_eval.specs.Watched.{AreForceless, may_enact, relation_in};
ghost use Rattle.base_types.specs.Contents.{changes_of};

use base_types::{
    Direction, FORCE_RELATION, Facts, Mapping, Memory, Tuple, Value, Write, WriteList,
};
use chase_query::Reply;
use chase_violation::{Scope, first_image as violating_image};
use std::alloc::Global;

/// The violations that count: all, or only those that the own writes caused in a direction.
#[derive(Clone, Copy)]
pub(crate) enum Counted {
    Every,
    Caused(Direction),
}

/// The relation of the tuple that is written.
pub(crate) fn relation_of(write: &Write) -> u16
    ensures relation { result ≡ relation_in (change_of write.now) }
{
    match write {
        Write::Insert(tuple) => tuple.relation,
        Write::Delete(tuple) => tuple.relation,
    }
}

/// Whether, with this write, an own write may put a mapping in force.
pub(crate) fn enacts_with(enacts: bool, write: &Write) -> bool
    ensures either { result ≡ (enacts || may_enact (change_of write.now)) }
{
    enacts || relation_of(write) == FORCE_RELATION
}

/// The violations of mapping `number` that count: forward, all if the own writes put it in force. `enacts` says whether one of
/// the writes may put any mapping in force.
pub(crate) fn scope_at(counted: Counted, own: &WriteList, enacts: bool, number: u16) -> Scope<'_>
    requires { AreForceless enacts (changes_of own.now) }
    ensures same { CountsAs (scope_at_def (scope_meant counted) (changes_of own.now) number)
        (changes_of own.now) result }
{
    match counted {
        Counted::Every => Scope::All,
        Counted::Caused(Direction::Forward) => {
            if is_put_in_force(own, enacts, number) {
                Scope::All
            } else {
                Scope::Forward(own)
            }
        }
        Counted::Caused(Direction::Backward) => Scope::Backward(own),
    }
}

// Whether a write puts the mapping of this number in force. The writes are searched only if `enacts` holds.
fn is_put_in_force(writes: &WriteList, enacts: bool, number: u16) -> bool
    requires { AreForceless enacts (changes_of writes.now) }
    ensures answer { result ≡ list_any (inserts (force number)) (changes_of writes.now) }
{
    enacts && puts_in_force(writes, number)
}

// Whether a write puts the mapping of this number in force.
fn puts_in_force(writes: &WriteList, number: u16) -> bool
    ensures answer { result ≡ list_any (inserts (force number)) (changes_of writes.now) }
{
    writes
        .as_slice()
        .iter()
        .any(|write| inserts_force(write, number))
}

// Whether the write puts the mapping of this number in force.
fn inserts_force(write: &Write, number: u16) -> bool
    ensures answer { result ≡ inserts (force number) (change_of write.now) }
{
    match write {
        Write::Insert(tuple) => is_force(tuple, number),
        Write::Delete(_) => false,
    }
}

// Whether the tuple says that the mapping of this number is in force.
fn is_force(tuple: &Tuple, number: u16) -> bool
    ensures answer { result ≡ same_fact (force number) (fact_of tuple.now) }
{
    tuple.relation == FORCE_RELATION && is_alone(tuple.values.as_slice(), number)
}

// Whether the number is the only value.
fn is_alone(values: &[Value], number: u16) -> bool
    ensures decides { Decides result (map datum_of values.now ≡ Number (pos number) ∷ []) }
{
    let alone = [Value::Int(i64::from(number))];
    values == alone.as_slice()
}

/// The image of the mapping's first violation that counts, or the reply that there is none. Without a mapping there is none.
pub(crate) fn first_image<F: Facts>(
    alloc: Global,
    mapping: Option<&Mapping>,
    facts: &F,
    scope: Scope<'_>,
) -> Result<Reply, Memory>
    ensures value { IfOk result (λ answer. reply_of answer ≡
        reply_in scope.entry (option_map rule_of (option_copied mapping.entry))
        (F.tuples facts.now)) }
{
    let Some(mapping) = mapping else {
        return Ok(Reply::Nothing);
    };
    match violating_image(alloc, mapping, facts, scope)? {
        Some(image) => Ok(Reply::Image(image)),
        None => Ok(Reply::Nothing),
    }
}
