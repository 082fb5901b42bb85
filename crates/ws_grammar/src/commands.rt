//! A line of commands.

use crate::bytes::{is_white, text_of};
use crate::cursors::Cursor;
use crate::standing::Names;
use std::alloc::{AllocError, Global};
use ws_command::{Command, Said, VERBS, Verb};
use ws_fault::{Nearest, Refusal, Status, meant};
use ws_print::{Text, add_escaped};

// The hint if no verb is near.
const LISTED: &str = "`help` lists them";

// Words of other languages, each with the verb that does the same here.
const OTHERS: [(&str, &str); 29] = [
    ("add", "insert"),
    ("put", "insert"),
    ("remove", "delete"),
    ("del", "delete"),
    ("rm", "delete"),
    ("update", "replace"),
    ("set", "replace"),
    ("change", "replace"),
    ("select", "ask"),
    ("query", "ask"),
    ("repair", "adopt"),
    ("fix", "adopt"),
    ("withdraw", "undo"),
    ("revert", "undo"),
    ("rollback", "undo"),
    ("import", "load"),
    ("check", "violations"),
    ("lint", "violations"),
    ("explain", "why"),
    ("history", "log"),
    ("tables", "status"),
    ("ls", "status"),
    ("save", "dump"),
    ("diff", "try"),
    ("create", "relation"),
    ("table", "relation"),
    ("rule", "mapping"),
    ("expand", "answer"),
    ("unify", "answer"),
];

// The verb that does the same as a word of another language.
fn same_as(word: &str) -> Option<&'static str> {
    for (other, verb) in OTHERS.iter() {
        if *other == word {
            return Some(*verb);
        }
    }
    None
}

// Whether `try` takes the command.
fn can_be_tried(verb: Verb) -> bool {
    verb.changes() && verb != Verb::Fold
}

// The question whether the nearest verb was meant; if `tried`, only verbs that `try` takes are considered.
fn meant_verb(alloc: Global, word: &str, tried: bool) -> Result<Option<String>, AllocError> {
    let mut nearest = Nearest::to(alloc, word)?;
    for verb in VERBS.iter() {
        if !tried || can_be_tried(*verb) {
            nearest.consider(verb.word())?;
        }
    }
    nearest.question()
}

// The hint for a word that is no verb.
fn verb_hint(alloc: Global, word: &str) -> Result<Option<String>, AllocError> {
    let lower = word.to_lowercase(alloc)?;
    if let Some(verb) = same_as(lower.as_str()) {
        return Ok(Some(meant(alloc, verb)?));
    }
    match meant_verb(alloc, word, false)? {
        None => Ok(Some(String::from_str(alloc, LISTED)?)),
        question => Ok(question),
    }
}

impl<'a> Cursor<'a> {
    fn verb(&mut self) -> Result<Verb, Refusal> {
        if !self.is_name() {
            return self.fail_with("a command", LISTED);
        }
        let at = self.at();
        let word = self.name("a command")?;
        if let Some(verb) = Verb::of(word) {
            return Ok(verb);
        }
        self.no_command(at, word, verb_hint(self.alloc, word))
    }

    // Refuses the word at a place, which is no command.
    fn no_command(
        &self,
        at: usize,
        word: &str,
        hint: Result<Option<String>, AllocError>,
    ) -> Result<Verb, Refusal> {
        let words = format!(in self.alloc; "{word} is no command");
        self.refuse(Status::Unread, at, words, hint)
    }

    fn command(&mut self) -> Result<Command, Refusal> {
        let verb = self.verb()?;
        if verb.changes() {
            let (change, still) = self.change(verb)?;
            return Ok(Command::Change { change, still });
        }
        match verb {
            Verb::Try => self.attempt(),
            Verb::Help => self.help(),
            Verb::Quit => {
                self.options(verb)?;
                Ok(Command::Quit)
            }
            _ => Ok(Command::Look(self.look(verb)?)),
        }
    }

    // The command that the rest of a `try` asks for.
    fn attempt(&mut self) -> Result<Command, Refusal> {
        let verb = self.tried()?;
        let (change, still) = self.change(verb)?;
        Ok(Command::Try { change, still })
    }

    // Reads the verb of a command that `try` takes.
    fn tried(&mut self) -> Result<Verb, Refusal> {
        let at = self.at();
        let word = self.name("a command behind try")?;
        match Verb::of(word) {
            Some(verb) if can_be_tried(verb) => Ok(verb),
            _ => {
                let words = "try takes a command that changes something";
                let words = String::from_str(self.alloc, words);
                self.refuse(
                    Status::Unread,
                    at,
                    words,
                    meant_verb(self.alloc, word, true),
                )
            }
        }
    }

    fn help(&mut self) -> Result<Command, Refusal> {
        let mut verb = None;
        if self.is_name() {
            verb = Some(self.helped()?);
        }
        self.options(Verb::Help)?;
        Ok(Command::Help(verb))
    }

    // Reads the verb that help is asked for.
    fn helped(&mut self) -> Result<Verb, Refusal> {
        let at = self.at();
        let word = self.name("a command")?;
        match Verb::of(word) {
            Some(verb) if word != "exit" => Ok(verb),
            _ => self.no_command(at, word, meant_verb(self.alloc, word, false)),
        }
    }

    // The comment of a command that must end here.
    fn last_comment(&self) -> Result<String, Refusal> {
        self.end()?;
        Ok(self.comment()?)
    }

    /// The comment of the line, with control characters escaped.
    pub(crate) fn comment(&self) -> Result<String, AllocError> {
        let mut comment = Text::new(self.alloc);
        add_escaped(&mut comment, text_of(self.comment).trim_matches(is_white));
        comment.done()
    }
}

/// Reads the command of a line over the names that stand. None if the line is blank or only a comment.
///
/// The line must not have a line feed. A fault is the first one from the left.
pub fn read_command(alloc: Global, names: &Names<'_>, line: &str) -> Result<Option<Said>, Refusal> {
    let mut cursor = Cursor::over(alloc, *names, line);
    if cursor.is_done() {
        return Ok(None);
    }
    let command = cursor.command()?;
    match cursor.last_comment() {
        Ok(comment) => Ok(Some(Said { command, comment })),
        Err(refusal) => {
            drop(command);
            Err(refusal)
        }
    }
}
