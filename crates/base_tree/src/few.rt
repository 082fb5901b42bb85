//! A few items that were found together, given one by one.
ghost use Rattle.std.specs.Prelude.{◌≡◌, ◌==◌, ◌≤◌, [], ◌∷◌, ◌++◌, IfNone};
ghost use Rattle.std.specs.Option.{option_copied, option_to_list};
ghost use Rattle.base_tree.specs.Few.{no_item, with_first};

use arrayvec::ArrayVec;
use std::marker::Model;

/// At most six items, which are given one by one. Contracts see the items still to be given, and the number of further items that
/// there is room for.
#[derive(Drop)]
pub struct Few<'a, T> {
    items: ArrayVec<Option<&'a T>, 6>,
    given: usize,
}

impl<'a, T> Model for Few<'a, T> {
    ghost use Rattle.std.specs.Prelude.{◌-◌, ◌≤◌, drop};
    ghost use Rattle.arrayvec.specs.ArrayVec.{array_vec_len};
    ghost use Rattle.base_tree.specs.Few.{Batch, items_in, most, AreFilled};

    ghost Value = { Batch T };

    ghost view = { λ f. record {
      left = items_in (drop f.given f.items.items);
      room = most - array_vec_len f.items;
    } };

    ghost invariant = { λ f. AreFilled f.items.items × (f.given ≤ array_vec_len f.items) };
}

impl<'a, T> Few<'a, T> {
    /// A batch without items.
    pub fn new() -> Few<'a, T>
        ensures none { result ≡ no_item }
    {
        Few {
            items: ArrayVec::new(),
            given: 0,
        }
    }

    /// Whether there is no room for another.
    pub fn is_full(&self) -> bool
        ensures full { result ≡ (self.now.room == 0) }
    {
        self.items.is_full()
    }

    /// Adds an item after the others.
    pub fn push(&mut self, item: &'a T)
        requires room { 1 ≤ self.old.room }
        ensures added { self.new ≡ with_first self.old (item.now ∷ []) }
    {
        self.items.push(Some(item));
    }

    /// The next item, if there is one.
    pub fn next(&mut self) -> Option<&'a T>
        ensures step { self.old.left ≡ option_to_list (option_copied result) ++ self.new.left }
        ensures room { self.new.room ≡ self.old.room }
        ensures end { IfNone result (self.old.left ≡ []) }
    {
        let Some(item) = self.items.as_slice().get(self.given) else {
            return None;
        };
        self.given += 1;
        *item
    }
}
