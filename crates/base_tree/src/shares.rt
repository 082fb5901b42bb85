//! Further handles to a value.
ghost use Rattle.std.specs.Prelude.{◌≡◌, IfOk};

use std::alloc::AllocError;
use std::cmp::Reverse;

/// A value of which further handles can be made. A handle is equal to the value.
pub trait Share: Drop {
    /// A further handle to the value.
    fn share(&self) -> Result<Self, AllocError>
        ensures same { IfOk result (λ copy. copy ≡ self.now) };
}

impl Share for () {
    fn share(&self) -> Result<(), AllocError> {
        Ok(())
    }
}

impl Share for bool {
    fn share(&self) -> Result<bool, AllocError> {
        Ok(*self)
    }
}

impl Share for u16 {
    fn share(&self) -> Result<u16, AllocError> {
        Ok(*self)
    }
}

impl Share for u32 {
    fn share(&self) -> Result<u32, AllocError> {
        Ok(*self)
    }
}

impl Share for Reverse<u32> {
    fn share(&self) -> Result<Reverse<u32>, AllocError> {
        Ok(Reverse(self.0))
    }
}
