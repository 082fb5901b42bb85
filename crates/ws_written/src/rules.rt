//! Mappings as they are written.

/// A term of an atom: a variable or a constant.
#[derive(Drop)]
pub enum Term {
    Variable(String),
    Number(i64),
    Text(String),
}

/// A relation with a term for each of its columns.
#[derive(Drop)]
pub struct Atom {
    pub relation: u32,
    pub terms: Vec<Term>,
}

/// A mapping as it was declared: each match of the left atoms must extend to the right atoms. Each `_` is a variable of its own.
pub struct Rule {
    pub name: String,
    pub left: Vec<Atom>,
    pub right: Vec<Atom>,
}

impl Drop for Rule {
    fn drop(self) {
        let Rule {
            name: _,
            left: _,
            right: _,
        } = self;
    }
}
