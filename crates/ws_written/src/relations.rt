//! Relations and their columns.

/// A column of a relation; `key` says whether it belongs to the key.
#[derive(Clone, Drop)]
pub struct Column {
    pub name: String,
    pub key: bool,
}

/// A relation, with its columns in order.
#[derive(Clone)]
pub struct Relation {
    pub name: String,
    pub columns: Vec<Column>,
}

impl Drop for Relation {
    fn drop(self) {
        let Relation {
            name: _,
            columns: _,
        } = self;
    }
}
