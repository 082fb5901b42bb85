// Values with a history.

/// A value whose meaning is a history: a list of entries, each with its maker, that only gets longer.
pub trait Grows {
    ghost use Rattle.std.specs.Prelude.{◌≡◌, List, length};
    ghost use Rattle.def_record.specs.declared.made.Made.{Made};

    /// The type of the history's entries. It may exist in contracts alone.
    type Entry;

    /// The value's history.
    ghost entries: { Self → List (Made Self.Entry) };

    /// How many entries the history has.
    fn length(&self) -> u64
        ensures { result ≡ length (entries self.now) };
}
