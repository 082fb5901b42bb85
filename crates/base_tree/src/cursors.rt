//! Cursors: places among the entries, from which a caller steps on.
ghost use Rattle.std.specs.Prelude.{◌≡◌, [], ◌++◌, IfNone};
ghost use Rattle.std.specs.Option.{option_copied, option_to_list};
ghost use Rattle.base_tree.specs.Orders.{IsOrdered, reached};
ghost use Rattle.base_tree.specs.Rests.{pending, IsPath, rest_of, IsDeep};

use crate::branch::{Branch, Node};
use crate::cuts::{Above, Cut, Start};
use crate::shares::Share;
use arrayvec::ArrayVec;
use std::marker::Model;

// The nodes whose own entry and right side are still to come; the last node comes first.
type Path<'a, K, V> = ArrayVec<Option<&'a Node<K, V>>, 32>;

// A tree for which the path had no room, with the next of its entries.
type Deep<'a, K, V> = Option<(&'a Branch<K, V>, &'a (K, V))>;

/// A place among the entries of a map. Contracts see the entries that are still to come.
#[derive(Drop)]
pub struct Cursor<'a, K: Ord, V> {
    path: Path<'a, K, V>,
    deep: Deep<'a, K, V>,
}

impl<'a, K: Ord, V> Model for Cursor<'a, K, V> {
    ghost use Rattle.std.specs.Prelude.{◌++◌, List};
    ghost use Rattle.base_tree.specs.Rests.{pending, IsPath, rest_of, IsDeep};

    ghost Value = { List (K × V) };

    ghost view = { λ c. rest_of K.cmp c.deep ++ pending c.path.items };

    ghost invariant = { λ c. IsPath K.cmp c.path.items × IsDeep K.cmp c.deep };
}

// The entries of the tree after the cut.
fn deep_from<'a, K: Ord + Share, V: Share, C: Cut<K>>(
    branch: &'a Branch<K, V>,
    cut: &C,
) -> Deep<'a, K, V>
    requires { IsOrdered K.cmp branch.now }
    ensures rest { rest_of K.cmp result ≡ reached (C.reaches cut.now) branch.now }
    ensures in_order { IsDeep K.cmp result }
{
    match branch.seek(cut) {
        Some(entry) => Some((branch, entry)),
        None => None,
    }
}

// Puts the entries of the tree after the cut before those that the path has.
fn descend<'a, K: Ord + Share, V: Share, C: Cut<K>>(
    path: &mut Path<'a, K, V>,
    branch: &'a Branch<K, V>,
    cut: &C,
) -> Deep<'a, K, V>
    requires in_order { IsOrdered K.cmp branch.now }
    requires path { IsPath K.cmp path.old.items }
    ensures rest { rest_of K.cmp result ++ pending path.new.items ≡
        reached (C.reaches cut.now) branch.now ++ pending path.old.items }
    ensures path { IsPath K.cmp path.new.items }
    ensures in_order { IsDeep K.cmp result }
{
    let mut here = branch;
    while let Some(shared) = &here.node {
        let node: &Node<K, V> = shared;
        if cut.reaches(&node.entry.0) {
            if path.is_full() {
                return deep_from(here, cut);
            }
            path.push(Some(node));
            here = &node.left;
        } else {
            here = &node.right;
        }
    }
    None
}

impl<'a, K: Ord + Share, V: Share> Cursor<'a, K, V> {
    /// A cursor with nothing to come.
    pub fn new() -> Cursor<'a, K, V>
        ensures empty { result ≡ [] }
    {
        Cursor {
            path: ArrayVec::new(),
            deep: None,
        }
    }

    /// Puts the cursor before the first entry after the cut.
    pub(crate) fn place<C: Cut<K>>(&mut self, branch: &'a Branch<K, V>, cut: &C)
        requires { IsOrdered K.cmp branch.now }
        ensures { self.new ≡ reached (C.reaches cut.now) branch.now }
    {
        self.path.clear();
        self.deep = descend(&mut self.path, branch, cut);
    }

    /// The next entry, if there is one.
    pub fn next(&mut self) -> Option<&'a (K, V)>
        ensures step { self.old ≡ option_to_list (option_copied result) ++ self.new }
        ensures end { IfNone result (self.old ≡ []) }
    {
        if let Some((branch, entry)) = self.deep {
            self.deep = deep_from(branch, &Above(&entry.0));
            return Some(entry);
        }
        match self.path.pop() {
            Some(Some(node)) => {
                self.deep = descend(&mut self.path, &node.right, &Start);
                return Some(&node.entry);
            }
            Some(None) => return None,
            None => return None,
        }
    }
}
