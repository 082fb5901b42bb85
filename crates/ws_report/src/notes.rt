//! Hints that a reply has.

use def_memory::Memory;
use std::alloc::Global;
use ws_json::{Items, Object};
use ws_print::Text;

/// A hint: its words, and the commands that it proposes.
#[derive(Drop)]
pub struct Note {
    pub words: String,
    pub commands: Vec<String>,
}

impl Note {
    /// A hint that proposes no command.
    pub fn of(alloc: Global, words: String) -> Note {
        Note {
            words,
            commands: Vec::new(alloc),
        }
    }

    /// `note: WORDS: COMMAND | COMMAND`.
    pub(crate) fn line(&self, alloc: Global) -> Result<String, Memory> {
        let words = self.words.as_str();
        let mut line = Text::new(alloc);
        write!(line, "note: {words}");
        for (place, command) in self.commands.iter().enumerate() {
            line.push_str(if place == 0 { ": " } else { " | " });
            line.push_str(command.as_str());
        }
        Ok(line.done()?)
    }

    /// The object of the hint: its words and its commands.
    pub(crate) fn object(&self, alloc: Global) -> Object {
        let mut commands = Items::new(alloc);
        for command in self.commands.iter() {
            commands.text(command.as_str());
        }
        let mut object = Object::new(alloc);
        object.text("words", self.words.as_str());
        object.items("commands", commands);
        object
    }
}
