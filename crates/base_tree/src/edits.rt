//! Insertions and removals of entries. A node that no other tree shares is changed in place.
ghost use Rattle.std.specs.Prelude.{◌≡◌, [], ◌++◌, IfOk, OnOk, OnErr, IfErr};
ghost use Rattle.std.specs.Option.{option_to_list};
ghost use Rattle.std.specs.BTreeMap.{insert_entry};
ghost use Rattle.base_tree.specs.Orders.{IsOrdered, value_at, without};

use crate::branch::Branch;
use crate::shares::Share;
use std::alloc::{AllocError, Global};
use std::cmp::Ordering;
use std::mem;
use std::sync::Arc;

impl<K: Ord + Share, V: Share> Branch<K, V> {
    /// Puts the value at the key, and returns the value that was there. If it is refused, it hands both back, and the entries are
    /// unchanged.
    pub fn put(&mut self, alloc: Global, key: K, value: V) -> Result<Option<V>, (K, V)>
        requires { IsOrdered K.cmp self.old }
        ensures ok { OnOk result (self.new ≡ insert_entry K.cmp self.old key value) }
        ensures before { IfOk result (λ before. before ≡ value_at K.cmp key self.old) }
        ensures err { OnErr result (self.new ≡ self.old) }
        ensures given_back { IfErr result (λ e. e ≡ (key, value)) }
    {
        let Some(shared) = &mut self.node else {
            *self = Branch::single(alloc, key, value)?;
            return Ok(None);
        };
        let Ok(node) = Arc::make_mut(shared) else {
            return Err((key, value));
        };
        match key.cmp(&node.entry.0) {
            Ordering::Less => {
                let was = node.left.height();
                let before = node.left.put(alloc, key, value)?;
                let is = node.left.height();
                node.settle(was, is);
                Ok(before)
            }
            Ordering::Equal => Ok(Some(mem::replace(&mut node.entry.1, value))),
            Ordering::Greater => {
                let was = node.right.height();
                let before = node.right.put(alloc, key, value)?;
                let is = node.right.height();
                node.settle(was, is);
                Ok(before)
            }
        }
    }

    // Removes the first entry and returns it, if there is one. If it is refused, the entries are unchanged.
    fn pop_first(&mut self) -> Result<Option<(K, V)>, AllocError>
        ensures ok { IfOk result (λ e. self.old ≡ option_to_list e ++ self.new) }
        ensures none { IfOk result (λ e. e ≡ None → self.new ≡ []) }
        ensures err { OnErr result (self.new ≡ self.old) }
    {
        let Some(shared) = &mut self.node else {
            return Ok(None);
        };
        let node = Arc::make_mut(shared)?;
        let was = node.left.height();
        match node.left.pop_first()? {
            Some(entry) => {
                let is = node.left.height();
                node.settle(was, is);
                Ok(Some(entry))
            }
            None => {
                let entry = (node.entry.0.share()?, node.entry.1.share()?);
                *self = mem::replace(&mut node.right, Branch::new());
                Ok(Some(entry))
            }
        }
    }

    /// Removes the entry at the key. If it is refused, the entries are unchanged.
    pub fn remove(&mut self, key: &K) -> Result<(), AllocError>
        requires { IsOrdered K.cmp self.old }
        ensures ok { OnOk result (self.new ≡ without K.cmp key.now self.old) }
        ensures err { OnErr result (self.new ≡ self.old) }
    {
        let Some(shared) = &mut self.node else {
            return Ok(());
        };
        let node = Arc::make_mut(shared)?;
        match key.cmp(&node.entry.0) {
            Ordering::Less => {
                let was = node.left.height();
                node.left.remove(key)?;
                let is = node.left.height();
                node.settle(was, is);
                Ok(())
            }
            Ordering::Equal => match node.right.pop_first()? {
                Some(next) => {
                    node.entry = next;
                    node.balance();
                    Ok(())
                }
                None => {
                    *self = mem::replace(&mut node.left, Branch::new());
                    Ok(())
                }
            },
            Ordering::Greater => {
                let was = node.right.height();
                node.right.remove(key)?;
                let is = node.right.height();
                node.settle(was, is);
                Ok(())
            }
        }
    }
}
