//! Cuts: where a walk over the entries begins.
ghost use Rattle.std.specs.Prelude.{◌≡◌, Bool, true, refl};
ghost use Rattle.std.specs.Ordering.{is_lt, is_le};
ghost use Rattle.std.specs.declared.cmp.Ordering.{Ordering};
ghost use Rattle.std.specs.declared.cmp.Ordering.TheVariants.{Less};
ghost use Rattle.base_tree.specs.Rising.{lt_rises, le_rises};

/// A cut through the keys: the keys that it reaches come after all others.
pub trait Cut<K: Ord> {
    ghost reaches: { Self → K → Bool };

    /// Whether the key lies after the cut.
    fn reaches(&self, key: &K) -> bool
        ensures { result ≡ reaches self.now key.now };

    ghost rises: { (c : Self) (x y : K) → K.cmp x y ≡ Less → reaches c x ≡ true → reaches c y
        ≡ true };
}

/// The cut before all keys.
#[derive(Drop)]
pub struct Start;

impl<K: Ord> Cut<K> for Start {
    ghost reaches = { λ _ _. true };

    ghost rises = { λ _ _ _ _ _. refl };

    fn reaches(&self, _key: &K) -> bool {
        true
    }
}

/// The cut after a key: it reaches the keys above that one.
#[derive(Drop)]
pub struct Above<'k, K: Ord>(pub &'k K);

impl<'k, K: Ord> Cut<K> for Above<'k, K> {
    ghost reaches = { λ c x. is_lt (K.cmp c.0.now x) };

    ghost rises = { λ c x y. lt_rises K.total c.0.now x y };

    fn reaches(&self, key: &K) -> bool {
        self.0.cmp(key).is_lt()
    }
}

/// The cut before a key: it reaches that key and the keys above it.
#[derive(Drop)]
pub struct AtLeast<'k, K: Ord>(pub &'k K);

impl<'k, K: Ord> Cut<K> for AtLeast<'k, K> {
    ghost reaches = { λ c x. is_le (K.cmp c.0.now x) };

    ghost rises = { λ c x y. le_rises K.total c.0.now x y };

    fn reaches(&self, key: &K) -> bool {
        self.0.cmp(key).is_le()
    }
}
