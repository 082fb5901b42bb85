//! Setting the marks at a key of a map.
ghost use Rattle.std.specs.Prelude.{◌≡◌, OnOk, OnErr};
ghost use Rattle.base_tree.specs.Orders.{IsOrdered};
ghost use Rattle.set_versions.specs.Indexed.{set_entry};

use crate::marks::Marks;
use base_tree::{Share, TreeMap};
use def_memory::Memory;
use std::alloc::Global;

/// Puts the marks at the key, or takes the key out if the marks say that the tuple is nowhere. If it is refused, nothing changes.
pub fn set<K: Ord + Share>(
    map: &mut TreeMap<K, Marks>,
    alloc: Global,
    key: K,
    marks: Marks,
) -> Result<(), Memory>
    ensures ok { OnOk result (map.new ≡ set_entry K.cmp map.old key marks) }
    ensures err { OnErr result (map.new ≡ map.old) }
    ensures in_order { IsOrdered K.cmp map.new }
{
    if marks.is_nowhere() {
        map.remove(&key)?;
        return Ok(());
    }
    match map.put(alloc, key, marks) {
        Ok(_) => return Ok(()),
        Err(_) => return Err(Memory),
    }
}
