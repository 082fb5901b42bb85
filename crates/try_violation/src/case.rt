//! A case: a mapping, a base, and own writes.
ghost use Rattle.std.specs.Prelude.{◌≡◌, OnOk, OnErr};
ghost use Rattle.def_chase.specs.Repository.{change};
ghost use Rattle.base_types.specs.Meanings.{change_of};

use base_types::{List, Mapping, Memory, TryCopy, Write, WriteList};
use set_facts::{IndexedFacts, PlainFacts};
use std::alloc::Global;

/// A mapping, the tuples before the own writes, and the own writes in order.
#[derive(Drop)]
pub struct Case {
    pub mapping: Mapping,
    pub base: PlainFacts,
    pub own: WriteList,
}

impl Case {
    /// An empty case.
    pub fn new(alloc: Global) -> Case {
        let mapping = Mapping {
            name: List::new(alloc),
            names: List::new(alloc),
            universal: 0,
            since: 0,
            left: List::new(alloc),
            right: List::new(alloc),
        };
        Case {
            mapping,
            base: PlainFacts::new(alloc),
            own: List::new(alloc),
        }
    }
}

// Makes the write in the plain set. After an error the set is unchanged.
fn write_plain(alloc: Global, facts: &mut PlainFacts, write: &Write) -> Result<(), Memory>
    ensures ok { OnOk result (facts.new ≡ change facts.old (change_of write.now)) }
    ensures err { OnErr result (facts.new ≡ facts.old) }
{
    match write {
        Write::Insert(tuple) => {
            facts.insert(tuple.copy(alloc)?)?;
        }
        Write::Delete(tuple) => {
            facts.remove(tuple);
        }
    }
    Ok(())
}

// Makes the write in the indexed set. After an error the set is unchanged.
fn write_indexed(alloc: Global, facts: &mut IndexedFacts, write: &Write) -> Result<(), Memory>
    ensures ok { OnOk result (facts.new ≡ change facts.old (change_of write.now)) }
    ensures err { OnErr result (facts.new ≡ facts.old) }
{
    match write {
        Write::Insert(tuple) => {
            facts.insert(tuple.copy(alloc)?)?;
        }
        Write::Delete(tuple) => {
            facts.remove(tuple);
        }
    }
    Ok(())
}

// Makes the writes in the plain set, in order.
fn write_all_plain(alloc: Global, facts: &mut PlainFacts, writes: &[Write]) -> Result<(), Memory> {
    for write in writes {
        write_plain(alloc, facts, write)?;
    }
    Ok(())
}

// Makes the writes in the indexed set, in order.
fn write_all_indexed(
    alloc: Global,
    facts: &mut IndexedFacts,
    writes: &[Write],
) -> Result<(), Memory> {
    for write in writes {
        write_indexed(alloc, facts, write)?;
    }
    Ok(())
}

/// The plain set after the writes.
pub fn plain_after(
    alloc: Global,
    base: &PlainFacts,
    writes: &[Write],
) -> Result<PlainFacts, Memory> {
    let mut facts = base.copy(alloc)?;
    write_all_plain(alloc, &mut facts, writes)?;
    Ok(facts)
}

/// The indexed set after the writes.
pub fn indexed_after(
    alloc: Global,
    base: &PlainFacts,
    writes: &[Write],
) -> Result<IndexedFacts, Memory> {
    let mut facts = IndexedFacts::of(alloc, base.copy(alloc)?)?;
    write_all_indexed(alloc, &mut facts, writes)?;
    Ok(facts)
}
