//! The words before the command, one after the other.

use std::alloc::{AllocError, Global};
use ws_fault::{Fault, Nearest, Refusal, Status};
use ws_print::{Text, add_escaped};

const OPTIONS: [&str; 7] = [
    "--json",
    "--as",
    "--wait",
    "--keep-going",
    "--no-files",
    "--help",
    "--version",
];

/// What the words before the command said.
#[derive(Drop)]
pub(crate) struct Front<'a> {
    pub(crate) curator: Option<&'a str>,
    pub(crate) wait: Option<&'a str>,
    pub(crate) json: bool,
    pub(crate) keep_going: bool,
    pub(crate) no_files: bool,
    pub(crate) file: Option<&'a str>,
}

impl<'a> Front<'a> {
    /// No word was read yet.
    pub(crate) fn new() -> Front<'a> {
        Front {
            curator: None,
            wait: None,
            json: false,
            keep_going: false,
            no_files: false,
            file: None,
        }
    }

    fn set_flag(&mut self, word: &str) {
        match word {
            "--json" => self.json = true,
            "--keep-going" => self.keep_going = true,
            _ => self.no_files = true,
        }
    }

    fn set_value(&mut self, option: &str, value: &'a str) {
        if option == "--as" {
            self.curator = Some(value);
        } else {
            self.wait = Some(value);
        }
    }
}

/// What comes after a word.
#[derive(Clone, Copy)]
pub(crate) enum Next<'a> {
    Help,
    Version,
    /// These words are left.
    Words(&'a [String]),
    /// The word begins the command.
    Command,
}

// What a word before the command is.
#[derive(Clone, Copy)]
enum Kind<'a> {
    Help,
    Version,
    Flag,
    /// An option whose value is the next word.
    Valued,
    /// An option together with its value.
    Value(&'a str, &'a str),
    Unknown,
    Other,
}

fn kind_of(word: &str, has_file: bool) -> Kind<'_> {
    match word {
        "-h" | "--help" if !has_file => Kind::Help,
        "-V" | "--version" if !has_file => Kind::Version,
        "--json" | "--keep-going" | "--no-files" => Kind::Flag,
        "--as" | "--wait" => Kind::Valued,
        "-" => Kind::Other,
        _ => valued_kind(word),
    }
}

fn valued_kind(word: &str) -> Kind<'_> {
    if let Some(value) = word.strip_prefix("--as=") {
        return Kind::Value("--as", value);
    }
    if let Some(value) = word.strip_prefix("--wait=") {
        return Kind::Value("--wait", value);
    }
    if word.starts_with("-") {
        Kind::Unknown
    } else {
        Kind::Other
    }
}

/// Takes a word before the command; `after` are the words after it.
pub(crate) fn step<'a>(
    alloc: Global,
    front: &mut Front<'a>,
    word: &'a str,
    after: &'a [String],
) -> Result<Next<'a>, Refusal> {
    match kind_of(word, front.file.is_some()) {
        Kind::Help => return Ok(Next::Help),
        Kind::Version => return Ok(Next::Version),
        Kind::Flag => front.set_flag(word),
        Kind::Value(option, value) => front.set_value(option, value),
        Kind::Unknown => return no_option(alloc, word),
        Kind::Valued => return valued(alloc, front, word, after),
        Kind::Other => {
            if front.file.is_some() {
                return Ok(Next::Command);
            }
            front.file = Some(word);
        }
    }
    Ok(Next::Words(after))
}

// Takes the value of an option.
fn valued<'a>(
    alloc: Global,
    front: &mut Front<'a>,
    word: &str,
    after: &'a [String],
) -> Result<Next<'a>, Refusal> {
    let Some((value, further)) = after.split_first() else {
        let words = format!(in alloc; "{word} takes a value")?;
        return wrong(alloc, words.as_str(), "");
    };
    front.set_value(word, value.as_str());
    Ok(Next::Words(further))
}

fn no_option<T>(alloc: Global, word: &str) -> Result<T, Refusal> {
    let mut nearest = Nearest::to(alloc, word)?;
    for option in OPTIONS.iter() {
        nearest.consider(*option)?;
    }
    let words = format!(in alloc; "there is no option {word}")?;
    match nearest.question()? {
        Some(question) => wrong(alloc, words.as_str(), question.as_str()),
        None => wrong(
            alloc,
            words.as_str(),
            "options of a command stand behind it",
        ),
    }
}

/// Refuses the words. An empty hint means that there is none.
pub(crate) fn wrong<T>(alloc: Global, words: &str, hint: &str) -> Result<T, Refusal> {
    Err(Refusal::Fault(fault_of(alloc, words, hint)?))
}

/// A fault of the words. An empty hint means that there is none.
pub(crate) fn fault_of(alloc: Global, words: &str, hint: &str) -> Result<Fault, AllocError> {
    let mut told = Text::new(alloc);
    add_escaped(&mut told, words);
    let told = told.done()?;
    let mut advice = Text::new(alloc);
    add_escaped(&mut advice, hint);
    let advice = advice.done()?;
    Ok(Fault {
        status: Status::Unread,
        words: told,
        place: None,
        hint: if hint.is_empty() { None } else { Some(advice) },
        more: Vec::new(alloc),
    })
}
