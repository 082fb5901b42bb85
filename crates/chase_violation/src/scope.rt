//! The violations that count.
use base_types::WriteList;

/// The violations of a mapping that count: all; or those caused forward; or those caused backward. Forward, the last own write of
/// some tuple of the image is an insertion. Backward, some right atom can be made equal to a tuple that an own write deletes.
#[derive(Clone, Copy, Debug)]
pub enum Scope<'a> {
    All,
    Forward(&'a WriteList),
    Backward(&'a WriteList),
}
