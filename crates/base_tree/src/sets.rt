//! Ordered sets.
ghost use Rattle.std.specs.Prelude.{◌≡◌, [], not, length, find, filter, IfOk, OnOk, OnErr, IfErr};
ghost use Rattle.std.specs.List.{list_any};
ghost use Rattle.std.specs.List.Sorted.{IsStrictlySortedBy};
ghost use Rattle.std.specs.Option.{option_copied};
ghost use Rattle.std.specs.BTreeSet.{insert_key};
ghost use Rattle.std.specs.Ordering.{is_eq};

use crate::cuts::Cut;
use crate::maps::TreeMap;
use crate::shares::Share;
use std::alloc::{AllocError, Global};
use std::marker::Model;

/// An ordered set. Contracts see the list of its keys, in order.
#[derive(Drop)]
pub struct TreeSet<K: Ord> {
    map: TreeMap<K, ()>,
}

impl<K: Ord> Model for TreeSet<K> {
    ghost use Rattle.std.specs.Prelude.{List};
    ghost use Rattle.std.specs.Map.{keys_of};

    ghost Value = { List K };

    ghost view = { λ s. keys_of s.map };
}

impl<K: Ord + Share> TreeSet<K> {
    /// The empty set.
    pub fn new() -> TreeSet<K>
        ensures empty { result ≡ [] }
    {
        TreeSet {
            map: TreeMap::new(),
        }
    }

    /// The number of keys.
    pub fn len(&self) -> usize
        ensures length { result ≡ length self.now }
    {
        self.map.len()
    }

    /// Whether the key is in the set.
    pub fn contains(&self, key: &K) -> bool
        ensures answer { result ≡ list_any (λ x. is_eq (K.cmp key.now x)) self.now }
        ensures in_order { IsStrictlySortedBy K.cmp self.now }
    {
        match self.map.get(key) {
            Some(_) => return true,
            None => return false,
        }
    }

    /// The first key after the cut.
    pub fn seek<C: Cut<K>>(&self, cut: &C) -> Option<&K>
        ensures found { option_copied result ≡ find (C.reaches cut.now) self.now }
        ensures in_order { IsStrictlySortedBy K.cmp self.now }
    {
        match self.map.seek(cut) {
            Some(entry) => Some(&entry.0),
            None => None,
        }
    }

    /// Inserts the key, unless an equal one is there, and returns whether it is new. If it is refused, it hands the key back, and
    /// the keys are unchanged.
    pub fn insert(&mut self, alloc: Global, key: K) -> Result<bool, K>
        ensures ok { OnOk result (self.new ≡ insert_key K.cmp self.old key) }
        ensures changed { IfOk result
            (λ b. b ≡ not (list_any (λ x. is_eq (K.cmp key x)) self.old)) }
        ensures err { OnErr result (self.new ≡ self.old) }
        ensures given_back { IfErr result (λ k. k ≡ key) }
    {
        match self.map.put(alloc, key, ()) {
            Ok(before) => return Ok(before.is_none()),
            Err(refused) => return Err(refused.0),
        }
    }

    /// Removes the key, and returns whether it was there. If it is refused, the keys are unchanged.
    pub fn remove(&mut self, key: &K) -> Result<bool, AllocError>
        ensures ok { OnOk result (self.new ≡ filter (λ x. not (is_eq (K.cmp key.now x))) self.old) }
        ensures changed { IfOk result (λ b. b ≡ list_any (λ x. is_eq (K.cmp key.now x)) self.old) }
        ensures err { OnErr result (self.new ≡ self.old) }
    {
        let changed = self.map.remove(key)?;
        Ok(changed)
    }
}

impl<K: Ord + Share> Share for TreeSet<K> {
    /// Another handle to the same keys, in constant time.
    fn share(&self) -> Result<TreeSet<K>, AllocError>
        ensures same { IfOk result (λ copy. copy ≡ self.now) }
    {
        Ok(TreeSet {
            map: self.map.share()?,
        })
    }
}
