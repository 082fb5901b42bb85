//! Binary trees of entries, whose nodes may be shared with other trees. Nothing is claimed of their balance.
ghost use Rattle.std.specs.Prelude.{◌≡◌, ◌≤◌, [], ◌∷◌, ◌++◌, map, filter, IfOk, IfErr};
ghost use Rattle.std.specs.Option.{option_copied};
ghost use Rattle.base_tree.specs.Nodes.{entries_at};
ghost use Rattle.base_tree.specs.Orders.{IsOrdered, entry_at, first_reached, first_sought};
ghost use Rattle.base_tree.specs.Bounds.{AreWithin};
ghost use Rattle.base_tree.specs.Few.{all_shown, with_first};

use crate::bounds::{Bounds, place_within};
use crate::cuts::Cut;
use crate::few::Few;
use crate::searches::{Search, Show, Sought};
use crate::shares::Share;
use std::alloc::{AllocError, Global};
use std::cmp::Ordering;
use std::marker::Model;
use std::sync::Arc;

/// A tree. Contracts see the list of its entries.
#[cycle(branch)]
#[derive(Drop)]
pub struct Branch<K, V> {
    pub(crate) node: Option<Arc<Node<K, V>>>,
}

// A node: the entries before its own entry, its own entry, and the entries after it.
#[cycle(branch)]
#[derive(Drop)]
pub(crate) struct Node<K, V> {
    pub(crate) left: Branch<K, V>,
    pub(crate) entry: (K, V),
    pub(crate) right: Branch<K, V>,
    pub(crate) height: u8,
}

impl<K, V> Model for Branch<K, V> {
    ghost use Rattle.std.specs.Prelude.{List, length};

    ghost Value = { List (K × V) };

    ghost use Rattle.base_tree.specs.Nodes.{entries_at};

    ghost view = { λ b. entries_at b.node };

    ghost size = { length };

    ghost use Rattle.std.proofs.Common.{arith, length-append};

    ghost size_decreases = { λ a h. Prim.grind (arith, length-append) };
}

impl<K: Drop, V: Drop> Branch<K, V> {
    /// The tree of no entries.
    pub fn new() -> Branch<K, V>
        ensures empty { result ≡ [] }
    {
        Branch { node: None }
    }

    /// Another handle to the same tree.
    pub fn share(&self) -> Result<Branch<K, V>, AllocError>
        ensures same { IfOk result (λ copy. copy ≡ self.now) }
    {
        match &self.node {
            Some(node) => {
                let node = Arc::try_clone(node)?;
                Ok(Branch { node: Some(node) })
            }
            None => Ok(Branch { node: None }),
        }
    }

    // The number of nodes on the longest way down, as the nodes note it.
    #[inline]
    pub(crate) fn height(&self) -> u8 {
        match &self.node {
            Some(node) => node.height,
            None => 0,
        }
    }

    // The node at the top.
    pub(crate) fn into_node(self) -> Option<Arc<Node<K, V>>>
        ensures same { entries_at result ≡ self }
    {
        self.node
    }

    // The tree of the left side, the entry and the right side.
    fn joined(
        alloc: Global,
        left: Branch<K, V>,
        entry: (K, V),
        right: Branch<K, V>,
    ) -> Result<Branch<K, V>, AllocError>
        ensures entries { IfOk result (λ b. b ≡ left ++ entry ∷ right) }
    {
        let height = left.height().max(right.height()).saturating_add(1);
        let node = Arc::new(
            alloc,
            Node {
                left,
                entry,
                right,
                height,
            },
        )?;
        Ok(Branch { node: Some(node) })
    }

    // The tree of one entry. If it is refused, it hands the entry back.
    pub(crate) fn single(alloc: Global, key: K, value: V) -> Result<Branch<K, V>, (K, V)>
        ensures ok { IfOk result (λ b. b ≡ (key, value) ∷ []) }
        ensures given_back { IfErr result (λ e. e ≡ (key, value)) }
    {
        match Arc::new(
            alloc,
            Node {
                left: Branch { node: None },
                entry: (key, value),
                right: Branch { node: None },
                height: 1,
            },
        ) {
            Ok(node) => Ok(Branch { node: Some(node) }),
            Err(refused) => {
                let node = refused.value;
                Err(node.entry)
            }
        }
    }
}

impl<K: Ord + Share, V: Share> Branch<K, V> {
    /// The entry at the key.
    pub fn get(&self, key: &K) -> Option<&(K, V)>
        requires { IsOrdered K.cmp self.now }
        ensures { option_copied result ≡ entry_at K.cmp key.now self.now }
    {
        let mut here = self;
        while let Some(shared) = &here.node {
            let node: &Node<K, V> = shared;
            match key.cmp(&node.entry.0) {
                Ordering::Less => here = &node.left,
                Ordering::Equal => return Some(&node.entry),
                Ordering::Greater => here = &node.right,
            }
        }
        None
    }

    /// The entry at the key that `sought` stands for.
    pub fn find_at<S: Sought<K>>(&self, sought: &S) -> Option<&(K, V)>
        requires { IsOrdered K.cmp self.now }
        ensures { option_copied result ≡ entry_at K.cmp (S.key sought.now) self.now }
    {
        let mut here = self;
        while let Some(shared) = &here.node {
            let node: &Node<K, V> = shared;
            match sought.order(&node.entry.0) {
                Ordering::Less => here = &node.left,
                Ordering::Equal => return Some(&node.entry),
                Ordering::Greater => here = &node.right,
            }
        }
        None
    }

    /// The first entry after the cut.
    pub fn seek<C: Cut<K>>(&self, cut: &C) -> Option<&(K, V)>
        requires { IsOrdered K.cmp self.now }
        ensures { option_copied result ≡ first_reached (C.reaches cut.now) self.now }
    {
        let mut here = self;
        let mut best = None;
        while let Some(shared) = &here.node {
            let node: &Node<K, V> = shared;
            if cut.reaches(&node.entry.0) {
                best = Some(&node.entry);
                here = &node.left;
            } else {
                here = &node.right;
            }
        }
        best
    }

    /// The first entry that the search looks for.
    pub fn find_in<S: Search<K, V>>(&self, search: &S) -> Option<&(K, V)>
        requires { IsOrdered K.cmp self.now }
        ensures { option_copied result ≡
            first_sought (S.place search.now) (S.passes search.now) self.now }
    {
        let Some(shared) = &self.node else {
            return None;
        };
        let node: &Node<K, V> = shared;
        match search.place(&node.entry.0) {
            Ordering::Less => node.right.find_in(search),
            Ordering::Equal => {
                if let Some(found) = node.left.find_in(search) {
                    return Some(found);
                }
                if search.passes(&node.entry) {
                    return Some(&node.entry);
                }
                node.right.find_in(search)
            }
            Ordering::Greater => node.left.find_in(search),
        }
    }

    /// Adds the shown parts of the first entries that the search looks for, as many as there is room for. The keys must keep
    /// within the bounds.
    pub(crate) fn gather<'a, T, S: Search<K, V> + Show<K, V, T>>(
        &'a self,
        search: &S,
        bounds: Bounds,
        found: &mut Few<'a, T>,
    )
        requires in_order { IsOrdered K.cmp self.now }
        requires within { AreWithin bounds (S.place search.now) self.now }
        ensures first { found.new ≡ with_first found.old
            (all_shown S.shown (S.place search.now) (S.passes search.now) self.now) }
    {
        let Some(shared) = &self.node else {
            return;
        };
        let node: &Node<K, V> = shared;
        match place_within(search, bounds, &node.entry.0) {
            Ordering::Less => node.right.gather(search, bounds, found),
            Ordering::Equal => {
                node.left.gather(search, bounds.below(), found);
                if found.is_full() {
                    return;
                }
                add_passing(search, &node.entry, found);
                node.right.gather(search, bounds.above(), found);
            }
            Ordering::Greater => node.left.gather(search, bounds, found),
        }
    }
}

// Adds the shown part of the entry, if the entry passes.
fn add_passing<'a, K: Ord, V, T, S: Search<K, V> + Show<K, V, T>>(
    search: &S,
    entry: &'a (K, V),
    found: &mut Few<'a, T>,
)
    requires room { 1 ≤ found.old.room }
    ensures added { found.new ≡ with_first found.old
        (map S.shown (filter (S.passes search.now) (entry.now ∷ []))) }
{
    if search.passes(entry) {
        found.push(S::show(entry));
    }
}
