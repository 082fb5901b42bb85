//! Atoms and mappings.

use crate::cursors::Cursor;
use crate::items::Item;
use ws_fault::Refusal;
use ws_written::{Atom, Rule, Term, Value};

/// The greatest number of atoms on a side.
const MOST: usize = 8;

// A variable, a number or a text.
impl Item for Term {
    fn read(cursor: &mut Cursor<'_>) -> Result<Term, Refusal> {
        if cursor.is_name() {
            return Ok(Term::Variable(cursor.owned_name("a variable")?));
        }
        if cursor.is_sign("?") {
            return cursor.no_term();
        }
        match cursor.value()? {
            Value::Number(number) => Ok(Term::Number(number)),
            Value::Text(text) => Ok(Term::Text(text)),
            Value::Unknown(_) | Value::Strange(_) => cursor.no_term(),
        }
    }
}

// An atom.
impl Item for Atom {
    fn read(cursor: &mut Cursor<'_>) -> Result<Atom, Refusal> {
        let (relation, terms) = cursor.tuple()?;
        Ok(Atom { relation, terms })
    }
}

// A mapping of the file; its name may be one that is kept for the program.
impl Item for Rule {
    fn read(cursor: &mut Cursor<'_>) -> Result<Rule, Refusal> {
        let name = cursor.owned_name("a name of the mapping")?;
        cursor.sides(name)
    }
}

impl<'a> Cursor<'a> {
    // Refuses what stands here in the place of a term.
    fn no_term(&self) -> Result<Term, Refusal> {
        self.fail_with(
            "a variable, number or text",
            "a variable is a plain name such as x",
        )
    }

    /// A mapping that a command declares. Its name must not be one that is kept for the program.
    pub(crate) fn new_rule(&mut self) -> Result<Rule, Refusal> {
        let name = self.plain_name("a name of the mapping")?;
        self.sides(name)
    }

    // `: LEFT -> RIGHT`.
    fn sides(&mut self, name: String) -> Result<Rule, Refusal> {
        self.sign(":", ": behind the name of the mapping")?;
        let at = self.at();
        let left: Vec<Atom> = self.joined()?;
        self.sign("->", "a comma or ->")?;
        let right: Vec<Atom> = self.joined()?;
        if MOST < left.len() || MOST < right.len() {
            return self.unread(at, "a side has 8 atoms at most", "");
        }
        Ok(Rule { name, left, right })
    }
}
