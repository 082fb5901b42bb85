//! Ordered maps.
ghost use Rattle.std.specs.Prelude.{◌≡◌, [], length, IfOk, OnOk, OnErr, IfErr};
ghost use Rattle.std.specs.Option.{option_copied, is_some};
ghost use Rattle.std.specs.BTreeMap.{insert_entry};
ghost use Rattle.base_tree.specs.Orders.{IsOrdered, entry_at, value_at, reached, first_reached, first_sought, without};
ghost use Rattle.base_tree.specs.Few.{all_shown, no_item, with_first};

use crate::bounds::Bounds;
use crate::branch::Branch;
use crate::cursors::Cursor;
use crate::cuts::Cut;
use crate::few::Few;
use crate::searches::{Search, Show, Sought};
use crate::shares::Share;
use std::alloc::{AllocError, Global};
use std::marker::Model;

/// An ordered map. Contracts see the list of its entries, in the order of their keys.
///
/// `share` gives another handle at once. Two handles are two maps: a change to one is not seen in the other. The nodes that both
/// have in common are kept once; a change copies only those on the way to it.
#[derive(Drop)]
pub struct TreeMap<K: Ord, V> {
    entries: Branch<K, V>,
    count: usize,
}

impl<K: Ord, V> Model for TreeMap<K, V> {
    ghost use Rattle.std.specs.Prelude.{◌≡◌, List, length};

    ghost Value = { List (K × V) };

    ghost use Rattle.base_tree.specs.Orders.{IsOrdered};

    ghost view = { λ m. m.entries };

    ghost invariant = { λ m. IsOrdered K.cmp m.entries × (length m.entries ≡ m.count) };
}

impl<K: Ord + Share, V: Share> TreeMap<K, V> {
    /// The empty map.
    pub fn new() -> TreeMap<K, V>
        ensures empty { result ≡ [] }
        ensures in_order { IsOrdered K.cmp result }
    {
        TreeMap {
            entries: Branch::new(),
            count: 0,
        }
    }

    /// The number of entries.
    pub fn len(&self) -> usize
        ensures length { result ≡ length self.now }
    {
        self.count
    }

    /// The entry at the key.
    pub fn get(&self, key: &K) -> Option<&(K, V)>
        ensures found { option_copied result ≡ entry_at K.cmp key.now self.now }
        ensures in_order { IsOrdered K.cmp self.now }
    {
        self.entries.get(key)
    }

    /// The entry at the key that `sought` stands for.
    pub fn find_at<S: Sought<K>>(&self, sought: &S) -> Option<&(K, V)>
        ensures found { option_copied result ≡ entry_at K.cmp (S.key sought.now) self.now }
        ensures in_order { IsOrdered K.cmp self.now }
    {
        self.entries.find_at(sought)
    }

    /// The first entry after the cut.
    pub fn seek<C: Cut<K>>(&self, cut: &C) -> Option<&(K, V)>
        ensures found { option_copied result ≡ first_reached (C.reaches cut.now) self.now }
        ensures in_order { IsOrdered K.cmp self.now }
    {
        self.entries.seek(cut)
    }

    /// The first entry that the search looks for.
    pub fn find_in<S: Search<K, V>>(&self, search: &S) -> Option<&(K, V)>
        ensures found { option_copied result ≡
            first_sought (S.place search.now) (S.passes search.now) self.now }
        ensures in_order { IsOrdered K.cmp self.now }
    {
        self.entries.find_in(search)
    }

    /// The shown parts of the first entries that the search looks for: of all, or of as many as the result has room for.
    pub fn gather<T, S: Search<K, V> + Show<K, V, T>>(&self, search: &S) -> Few<'_, T>
        ensures first { result ≡ with_first no_item
            (all_shown S.shown (S.place search.now) (S.passes search.now) self.now) }
        ensures in_order { IsOrdered K.cmp self.now }
    {
        let mut found = Few::new();
        self.entries.gather(search, Bounds::none(), &mut found);
        found
    }

    /// A cursor before the first entry after the cut.
    pub fn cursor<C: Cut<K>>(&self, cut: &C) -> Cursor<'_, K, V>
        ensures rest { result ≡ reached (C.reaches cut.now) self.now }
        ensures in_order { IsOrdered K.cmp self.now }
    {
        let mut cursor = Cursor::new();
        cursor.place(&self.entries, cut);
        cursor
    }

    /// Puts a cursor before the first entry after the cut. It costs less than a new cursor.
    pub fn place<'a, C: Cut<K>>(&'a self, cursor: &mut Cursor<'a, K, V>, cut: &C)
        ensures rest { cursor.new ≡ reached (C.reaches cut.now) self.now }
        ensures in_order { IsOrdered K.cmp self.now }
    {
        cursor.place(&self.entries, cut);
    }

    /// Puts the value at the key, and returns the value that was there. An equal key stays. If memory runs out, or the count of
    /// entries would overflow, it hands both back, and the entries are unchanged.
    pub fn put(&mut self, alloc: Global, key: K, value: V) -> Result<Option<V>, (K, V)>
        ensures ok { OnOk result (self.new ≡ insert_entry K.cmp self.old key value) }
        ensures before { IfOk result (λ before. before ≡ value_at K.cmp key self.old) }
        ensures err { OnErr result (self.new ≡ self.old) }
        ensures given_back { IfErr result (λ e. e ≡ (key, value)) }
        ensures in_order { IsOrdered K.cmp self.new }
    {
        if self.count == usize::MAX {
            return Err((key, value));
        }
        match self.entries.put(alloc, key, value)? {
            Some(before) => Ok(Some(before)),
            None => {
                self.count += 1;
                Ok(None)
            }
        }
    }

    /// Removes the entry at the key, and returns whether there was one. If it is refused, the entries are unchanged.
    pub fn remove(&mut self, key: &K) -> Result<bool, AllocError>
        ensures ok { OnOk result (self.new ≡ without K.cmp key.now self.old) }
        ensures changed { IfOk result (λ b. b ≡ is_some (entry_at K.cmp key.now self.old)) }
        ensures err { OnErr result (self.new ≡ self.old) }
        ensures in_order { IsOrdered K.cmp self.new }
    {
        let None = self.entries.get(key) else {
            self.entries.remove(key)?;
            self.count -= 1;
            return Ok(true);
        };
        Ok(false)
    }
}

impl<K: Ord + Share, V: Share> Share for TreeMap<K, V> {
    /// Another handle to the same entries, in constant time.
    fn share(&self) -> Result<TreeMap<K, V>, AllocError>
        ensures same { IfOk result (λ copy. copy ≡ self.now) }
    {
        Ok(TreeMap {
            entries: self.entries.share()?,
            count: self.count,
        })
    }
}
