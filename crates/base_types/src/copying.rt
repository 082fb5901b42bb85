//! Copies, which take memory.
ghost use Rattle.std.specs.Prelude.{◌≡◌, ℕ, List, Option, map, IfOk};
ghost use Rattle.std.specs.Option.{option_map};

use crate::lists::List;
use def_memory::Memory;
use std::alloc::Global;

/// A type whose values can be copied. A copy means the same as the original.
pub trait TryCopy: Drop {
    ghost Meaning: { Type 0 };

    ghost meaning: { Self → Meaning };

    /// A copy that means the same as this value.
    fn copy(&self, alloc: Global) -> Result<Self, Memory>
        ensures same { IfOk result (λ copy. meaning copy ≡ meaning self.now) };
}

impl TryCopy for u8 {
    ghost Meaning = { ℕ };

    ghost meaning = { λ n. n };

    fn copy(&self, _alloc: Global) -> Result<u8, Memory> {
        Ok(*self)
    }
}

impl TryCopy for u16 {
    ghost Meaning = { ℕ };

    ghost meaning = { λ n. n };

    fn copy(&self, _alloc: Global) -> Result<u16, Memory> {
        Ok(*self)
    }
}

impl TryCopy for u32 {
    ghost Meaning = { ℕ };

    ghost meaning = { λ n. n };

    fn copy(&self, _alloc: Global) -> Result<u32, Memory> {
        Ok(*self)
    }
}

impl<T: TryCopy> TryCopy for Option<T> {
    ghost Meaning = { Option T.Meaning };

    ghost meaning = { option_map T.meaning };

    fn copy(&self, alloc: Global) -> Result<Option<T>, Memory> {
        match self {
            Some(item) => Ok(Some(item.copy(alloc)?)),
            None => Ok(None),
        }
    }
}

impl<T: TryCopy> TryCopy for List<T> {
    ghost Meaning = { List T.Meaning };

    ghost meaning = { λ l. map T.meaning l.items };

    fn copy(&self, alloc: Global) -> Result<List<T>, Memory> {
        let mut all = List::new(alloc);
        all.reserve(self.len())?;
        for item in self.as_slice() {
            all.push(item.copy(alloc)?)?;
        }
        Ok(all)
    }
}
