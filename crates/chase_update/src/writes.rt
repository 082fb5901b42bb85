//! Lists of writes.
ghost use Rattle.std.specs.Prelude.{◌≡◌, [], ◌∷◌, IfOk};

use base_types::{List, Memory, Write, WriteList};
use std::alloc::Global;

/// The list of this one write.
pub(crate) fn one(alloc: Global, write: Write) -> Result<WriteList, Memory>
    ensures value { IfOk result (λ writes. writes.items ≡ write ∷ []) }
{
    let mut writes = List::new(alloc);
    writes.push(write)?;
    Ok(writes)
}
