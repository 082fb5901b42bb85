//! Writes that are added to the end of those that an attempt has made.
ghost use Rattle.std.specs.Prelude.{◌≡◌, [], ◌∷◌, ◌++◌, OnOk, OnErr, map};
ghost use Rattle.def_chase.specs.Repository.{Insert};
ghost use Rattle.base_types.specs.Meanings.{fact_of, change_of};

use base_types::{List, Memory, TryCopy, Tuple, Write, WriteList};
use std::alloc::Global;
use std::mem;

/// Puts the writes at the end of the own ones. If it is refused, the own writes are unchanged.
pub fn append(alloc: Global, own: &mut WriteList, writes: WriteList) -> Result<(), Memory>
    ensures ok { OnOk result (own.new.items ≡ own.old.items ++ writes.items) }
    ensures err { OnErr result (own.new.items ≡ own.old.items) }
{
    if own.is_empty() {
        *own = writes;
        return Ok(());
    }
    if writes.is_empty() {
        return Ok(());
    }
    let mut items = mem::replace(own, List::new(alloc)).into_vec();
    let grown = items.append(&mut writes.into_vec());
    *own = List::from_vec(items);
    match grown {
        Ok(()) => Ok(()),
        Err(_) => Err(Memory),
    }
}

/// Puts the insertion of a copy of the tuple at the end of the own writes. If it is refused, they are unchanged.
pub(crate) fn insert(alloc: Global, own: &mut WriteList, tuple: &Tuple) -> Result<(), Memory>
    ensures ok { OnOk result (map change_of own.new.items ≡
        map change_of own.old.items ++ Insert (fact_of tuple.now) ∷ []) }
    ensures err { OnErr result (own.new.items ≡ own.old.items) }
{
    own.push(Write::Insert(tuple.copy(alloc)?))?;
    Ok(())
}
