//! Values, by names.

/// The name of an unknown, `?U.P`: the P-th that update U drew.
#[derive(Clone, Copy, Debug, PartialEq, Eq, PartialOrd, Ord, Hash)]
pub struct Unknown {
    pub update: u32,
    pub place: u32,
}

/// A value of a tuple.
#[derive(Drop)]
pub enum Value {
    Number(i64),
    Text(String),
    Unknown(Unknown),
    /// The name `U.P` of an unknown, one of whose numbers has more than 32 bits: it is not there, whatever stands.
    Strange(String),
}

/// A value of a tuple that is to be inserted: a known value, or a new unknown.
#[derive(Drop)]
pub enum NewValue {
    Known(Value),
    /// `?`: a new unknown at each place.
    Fresh,
    /// `?x`: a new unknown, the same at each place of this name in the command.
    Named(String),
}
