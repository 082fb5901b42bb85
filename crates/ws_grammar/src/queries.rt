//! Queries.

use crate::bytes::{Kind, is_white, name_run, run, text_of};
use crate::cursors::Cursor;
use crate::items::Item;
use crate::known::has_name;
use std::alloc::{AllocError, Global};
use ws_command::Asked;
use ws_fault::{Nearest, Refusal, Status};
use ws_written::{Atom, Term};

// A query: `[NAME(NAME, ..):] ATOM, ..`.
impl Item for Asked {
    fn read(cursor: &mut Cursor<'_>) -> Result<Asked, Refusal> {
        if has_head(cursor.rest) {
            return cursor.headed_query();
        }
        cursor.bare_query()
    }
}

// A variable of a head.
impl Item for String {
    fn read(cursor: &mut Cursor<'_>) -> Result<String, Refusal> {
        cursor.owned_name("a variable")
    }
}

impl<'a> Cursor<'a> {
    // A query without a head. Its head has all variables, in the order of their first places.
    fn bare_query(&mut self) -> Result<Asked, Refusal> {
        let at = self.at();
        let atoms: Vec<Atom> = self.joined()?;
        let head = variables_of(self.alloc, atoms.as_slice())?;
        if head.is_empty() {
            return self.unread(at, "the query has no variable", "");
        }
        Ok(Asked { head, atoms })
    }

    fn headed_query(&mut self) -> Result<Asked, Refusal> {
        self.name("a name")?;
        let at = self.at();
        self.sign("(", "(")?;
        let head: Vec<String> = self.to_bracket()?;
        self.sign(":", ":")?;
        let atoms: Vec<Atom> = self.joined()?;
        self.stand_in(at, head.as_slice(), atoms.as_slice())?;
        Ok(Asked { head, atoms })
    }

    // Refuses the head, which stands at `at`, if one of its names is no variable of an atom.
    fn stand_in(&self, at: usize, head: &[String], atoms: &[Atom]) -> Result<(), Refusal> {
        let variables = variables_of(self.alloc, atoms)?;
        for name in head {
            if !has_name(variables.as_slice(), name.as_str()) {
                return self.no_variable(at, variables.as_slice(), name.as_str());
            }
        }
        Ok(())
    }

    // Refuses a name of the head, which stands at `at`, because it is none of the variables.
    fn no_variable(&self, at: usize, variables: &[String], name: &str) -> Result<(), Refusal> {
        let mut nearest = Nearest::to(self.alloc, name)?;
        for variable in variables {
            nearest.consider(variable.as_str())?;
        }
        let words = format!(in self.alloc; "variable {name} stands in no atom");
        self.refuse(Status::Unread, at, words, nearest.question())
    }
}

fn after_white(bytes: &[u8]) -> &[u8] {
    text_of(bytes).trim_start_matches(is_white).as_bytes()
}

// The bytes after a pair of brackets that begins here and has no bracket inside.
fn after_brackets(bytes: &[u8]) -> Option<&[u8]> {
    let (_, rest) = run(bytes.strip_prefix(b"(")?, Kind::Unbracketed);
    rest.strip_prefix(b")")
}

// Whether a query with a head, `NAME(..):`, begins here.
fn has_head(rest: &[u8]) -> bool {
    let Some((_, after)) = name_run(rest) else {
        return false;
    };
    match after_brackets(after_white(after)) {
        Some(after) => after_white(after).starts_with(b":"),
        None => false,
    }
}

// The variables of atoms other than `_`, in the order of their first places.
fn variables_of(alloc: Global, atoms: &[Atom]) -> Result<Vec<String>, AllocError> {
    let mut names = Vec::new(alloc);
    for atom in atoms {
        for term in atom.terms.iter() {
            add_variable(alloc, &mut names, term)?;
        }
    }
    Ok(names)
}

fn add_variable(alloc: Global, names: &mut Vec<String>, term: &Term) -> Result<(), AllocError> {
    let Term::Variable(name) = term else {
        return Ok(());
    };
    if name.as_str() != "_" && !has_name(names.as_slice(), name.as_str()) {
        names.push(String::from_str(alloc, name.as_str())?)?;
    }
    Ok(())
}
