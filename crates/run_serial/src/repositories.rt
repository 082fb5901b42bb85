//! The repository of a run: what an update leaves in it, and what is reported of it.
ghost use Rattle.std.specs.Prelude.{◌≡◌, IfOk, OnOk, OnErr};
ghost use Rattle.def_chase.specs.Repository.{apply, change};
ghost use Rattle.base_types.specs.Meanings.{change_of};
ghost use Rattle.def_steps.specs.Serial.{answered};
ghost use Rattle.base_types.specs.Contents.{changes_of, facts_of};
ghost use Rattle.run_serial.specs.Meanings.{HasKept, HasMadeSome};

use base_types::{FORCE_RELATION, Memory, TupleList, Write, WriteList};
use chase_update::Outcome;
use set_facts::IndexedFacts;
use std::alloc::Global;

/// Makes the writes of an update that has ended so, if it is done; else makes none. On an error some of them, from the first
/// on, may have been made.
pub(crate) fn keep(
    facts: &mut IndexedFacts,
    writes: WriteList,
    outcome: Outcome,
) -> Result<(), Memory>
    ensures kept { OnOk result (HasKept facts.old writes outcome facts.new) }
    ensures err { OnErr result (HasMadeSome facts.old (changes_of writes) facts.new) }
{
    match outcome {
        Outcome::Done => make(facts, writes),
        Outcome::Spent => Ok(()),
        Outcome::Refused { .. } => Ok(()),
    }
}

// Makes the writes in turn.
fn make(facts: &mut IndexedFacts, writes: WriteList) -> Result<(), Memory>
    ensures made { OnOk result (facts.new ≡ apply facts.old (changes_of writes)) }
    ensures err { OnErr result (HasMadeSome facts.old (changes_of writes) facts.new) }
{
    for write in writes.into_vec() {
        make_one(facts, write)?;
    }
    Ok(())
}

fn make_one(facts: &mut IndexedFacts, write: Write) -> Result<(), Memory>
    ensures made { OnOk result (facts.new ≡ change facts.old (change_of write)) }
    ensures err { OnErr result (facts.new ≡ facts.old) }
{
    match write {
        Write::Insert(tuple) => {
            facts.insert(tuple)?;
        }
        Write::Delete(tuple) => {
            facts.remove(&tuple);
        }
    }
    Ok(())
}

/// The tuples of the repository in order, without the tuples that say which mappings are in force.
pub fn told(alloc: Global, facts: IndexedFacts) -> Result<TupleList, Memory>
    ensures told { IfOk result (λ tuples. facts_of tuples ≡ answered facts) }
{
    Ok(without_force(facts.into_list(alloc)?))
}

// The tuples without the ones that say which mappings are in force.
fn without_force(tuples: TupleList) -> TupleList
    ensures others { facts_of result ≡ answered (facts_of tuples) }
{
    let mut others = tuples.into_vec();
    others.retain(|tuple| tuple.relation != FORCE_RELATION);
    TupleList::from_vec(others)
}
