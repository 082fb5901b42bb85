// The items of a desk's record, and the marks by which the record is kept.

/// An item of a desk's record. `O` is the type of the core's ground, `E` the type of an entry of its history. Only contracts
/// speak of items; no code makes one.
pub enum Item<O, E> {
    /// The desk was opened, over a core with this ground whose history had this number of entries.
    Opened(O, u64),
    /// An entry of the core's history.
    Entered(E),
    /// A ticket, by its number, was given for an update.
    Gave(u64, u64),
    /// A ticket was returned.
    Returned(u64),
}

/// A mark of a desk. Together with the core's history the marks determine the record, so no entry is kept twice.
#[derive(Drop)]
pub enum Mark {
    /// The desk was opened, when the history had this number of entries.
    Opening(u64),
    /// The next entry of the history.
    Next,
    /// A ticket, by its number, was given for an update.
    Giving(u64, u64),
    /// A ticket was returned.
    Returning(u64),
}
