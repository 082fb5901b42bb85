//! An entry of a history, with its maker.

/// An entry of a history, and the number of the seat that made it, or none. Only contracts speak of these; no code makes one.
pub struct Made<E> {
    /// The entry itself.
    pub entry: E,
    /// The number of the seat that made the entry; none for an entry from before the lock was made.
    pub maker: Option<u64>,
}
