//! Rebalancing: a node keeps the heights of its two sides close to each other. The entries never change.
ghost use Rattle.std.specs.Prelude.{◌≡◌};
ghost use Rattle.base_tree.specs.Nodes.{entries};

use crate::branch::{Branch, Node};
use crate::shares::Share;
use std::alloc::AllocError;
use std::mem;
use std::sync::Arc;

impl<K: Share, V: Share> Clone for Node<K, V> {
    ghost is_clone = { λ node copy. copy ≡ node };

    fn clone(&self) -> Result<Node<K, V>, AllocError> {
        Ok(Node {
            left: self.left.share()?,
            entry: (self.entry.0.share()?, self.entry.1.share()?),
            right: self.right.share()?,
            height: self.height,
        })
    }
}

impl<K: Share, V: Share> Node<K, V> {
    // Notes the height.
    pub(crate) fn measure(&mut self)
        ensures same { entries self.new ≡ entries self.old }
    {
        self.height = self
            .left
            .height()
            .max(self.right.height())
            .saturating_add(1);
    }

    // Brings the heights of both sides closer to each other. If memory runs out, they stay as they are.
    pub(crate) fn balance(&mut self)
        ensures same { entries self.new ≡ entries self.old }
    {
        let (left, right) = (self.left.height(), self.right.height());
        if left > right.saturating_add(1) {
            self.straighten_left();
            self.lift_left();
        } else if right > left.saturating_add(1) {
            self.straighten_right();
            self.lift_right();
        }
        self.measure();
    }

    // Rebalances if the height of a side has changed from `was` to another value.
    #[inline]
    pub(crate) fn settle(&mut self, was: u8, is: u8)
        ensures same { entries self.new ≡ entries self.old }
    {
        if is != was {
            self.balance();
        }
    }

    // Rotates the left side's node up to the top.
    fn lift_left(&mut self)
        ensures same { entries self.new ≡ entries self.old }
    {
        let Some(mut shared) = mem::replace(&mut self.left, Branch::new()).into_node() else {
            return;
        };
        let Ok(lower) = Arc::make_mut(&mut shared) else {
            self.left = Branch { node: Some(shared) };
            return;
        };
        mem::swap(&mut self.entry, &mut lower.entry);
        let outer = mem::replace(&mut self.right, Branch::new());
        let inner = mem::replace(&mut lower.right, outer);
        self.left = mem::replace(&mut lower.left, inner);
        lower.measure();
        self.right = Branch { node: Some(shared) };
    }

    // Rotates the right side's node up to the top.
    fn lift_right(&mut self)
        ensures same { entries self.new ≡ entries self.old }
    {
        let Some(mut shared) = mem::replace(&mut self.right, Branch::new()).into_node() else {
            return;
        };
        let Ok(lower) = Arc::make_mut(&mut shared) else {
            self.right = Branch { node: Some(shared) };
            return;
        };
        mem::swap(&mut self.entry, &mut lower.entry);
        let outer = mem::replace(&mut self.left, Branch::new());
        let inner = mem::replace(&mut lower.left, outer);
        self.right = mem::replace(&mut lower.right, inner);
        lower.measure();
        self.left = Branch { node: Some(shared) };
    }

    // Makes the outer side of the left side no lower than its inner side.
    fn straighten_left(&mut self)
        ensures same { entries self.new ≡ entries self.old }
    {
        let side = &mut self.left;
        let Some(shared) = &mut side.node else {
            return;
        };
        if let Ok(lower) = Arc::make_mut(shared) {
            if lower.right.height() > lower.left.height() {
                lower.lift_right();
                lower.measure();
            }
        }
    }

    // Makes the outer side of the right side no lower than its inner side.
    fn straighten_right(&mut self)
        ensures same { entries self.new ≡ entries self.old }
    {
        let side = &mut self.right;
        let Some(shared) = &mut side.node else {
            return;
        };
        if let Ok(lower) = Arc::make_mut(shared) {
            if lower.left.height() > lower.right.height() {
                lower.lift_left();
                lower.measure();
            }
        }
    }
}
