//! The hint for a name that is not known.

use std::alloc::{AllocError, Global};
use ws_fault::Nearest;
use ws_print::Text;

/// The known names as a list, and the one nearest to a wrong name.
#[derive(Drop)]
pub(crate) struct Known<'a> {
    nearest: Nearest<'a>,
    list: Text,
    first: &'static str,
    between: &'static str,
}

impl<'a> Known<'a> {
    /// A list without names, for the name `wrong`. `first` stands in front of the first name, `between` between two names.
    pub(crate) fn to(
        alloc: Global,
        wrong: &str,
        first: &'static str,
        between: &'static str,
    ) -> Result<Known<'a>, AllocError> {
        Ok(Known {
            nearest: Nearest::to(alloc, wrong)?,
            list: Text::new(alloc),
            first,
            between,
        })
    }

    /// Adds a name.
    pub(crate) fn add(&mut self, name: &'a str) -> Result<(), AllocError> {
        let front = if self.list.is_empty() {
            self.first
        } else {
            self.between
        };
        self.list.push_str(front);
        self.list.push_str(name);
        self.nearest.consider(name)
    }

    /// The hint: the question whether the nearest name was meant, or the list if none is near.
    pub(crate) fn hint(self) -> Result<Option<String>, AllocError> {
        match self.nearest.question()? {
            None => Ok(Some(self.list.done()?)),
            question => Ok(question),
        }
    }
}

/// Whether `name` is one of `names`.
pub fn has_name(names: &[String], name: &str) -> bool {
    for other in names {
        if other.as_str() == name {
            return true;
        }
    }
    false
}
