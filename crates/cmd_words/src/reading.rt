//! What the words ask for.

ghost use Rattle.std.specs.Prelude.{◌≡◌, IfErr, IfOk, OnOk, codes, false, map, string_bytes, true};
ghost use Rattle.std.specs.Option.{option_map_or};
ghost use Rattle.std.specs.Str.{bytes_eq};
ghost use Rattle.clap.specs.Words.{first_value, found_of, kind_of};
ghost use Rattle.cmd_words.specs.declared.reading.WordsRefusal.TheVariants.{Memory};
ghost use Rattle.cmd_words.specs.Meaning.{Answers, HasRanges, answer_to, is_refused};

use crate::arguments::command_line;
use crate::names::{CommandName, Deps, command_named, deps_named};
use clap::ArgMatches;
use clap::error::ErrorKind;
use std::alloc::{AllocError, Global};

/// A command and its options. Each option that is not given has its default.
#[derive(Drop)]
pub struct Options<'a> {
    /// The command.
    pub command: CommandName,
    /// The number of workers, from 1 to 16.
    pub workers: u32,
    /// Which dependencies count.
    pub deps: Deps,
    /// The number of steps that an update may make, from 1 to 300.
    pub steps: u32,
    /// How many times an update is tried again, from 0 to 4.
    pub retries: u32,
    /// The number of updates that are generated, from 1 to 1000.
    pub count: u32,
    /// The seed of the generator.
    pub seed: u32,
    /// The tuple to explain, as it is written.
    pub tuple: Option<&'a str>,
    /// The query to answer, as it is written.
    pub query: Option<&'a str>,
    /// Whether the trace is printed.
    pub trace: bool,
}

/// What words ask for.
#[derive(Drop)]
pub enum Request<'a> {
    /// A command.
    Command(Options<'a>),
    /// The help text.
    Help,
    /// The version.
    Version,
}

/// Why words ask for nothing.
#[derive(Clone, Copy, Debug, PartialEq, Eq)]
pub enum WordsRefusal {
    /// The words do not fit the usage.
    Usage,
    /// There was not enough memory.
    Memory,
}

impl From<AllocError> for WordsRefusal {
    ghost from_gives = { λ _ refusal. refusal ≡ Memory };

    fn from(_error: AllocError) -> WordsRefusal {
        WordsRefusal::Memory
    }
}

// The answer for an error of `clap`.
fn answer_to<'a>(error: &clap::Error) -> Result<Request<'a>, WordsRefusal>
    ensures { result ≡ answer_to (kind_of error.now) }
{
    match error.kind() {
        ErrorKind::DisplayHelp => Ok(Request::Help),
        ErrorKind::DisplayVersion => Ok(Request::Version),
        ErrorKind::OutOfMemory => Err(WordsRefusal::Memory),
        _ => Err(WordsRefusal::Usage),
    }
}

// Whether the flag was given.
fn is_given(matches: &ArgMatches<'_>, id: &str) -> bool
    ensures { result ≡ option_map_or (λ t. bytes_eq t (codes "true"))
        (first_value (found_of matches.now) id.now) false }
{
    match matches.get_str(id) {
        Some(text) => text == "true",
        None => false,
    }
}

/// What the words after the program's name ask for.
///
/// One command of `clap` reads them: a positional, the number options `workers`, `steps`, `retries`, `count` and `seed` with
/// their ranges and defaults, the texts `deps`, `tuple` and `query`, and the flag `trace`. The answer is `Err(Usage)` if the
/// words are refused: by `clap`, or because no such command or kind of dependencies exists. `Err(Memory)` may come in place of
/// any answer.
pub fn read_words<'a>(alloc: Global, words: &'a [String]) -> Result<Request<'a>, WordsRefusal>
    ensures answer { IfOk result (Answers (map string_bytes words.entry.now)) }
    ensures ranges { IfOk result HasRanges }
    ensures taken { OnOk result (is_refused (map string_bytes words.entry.now) ≡ false) }
    ensures usage { IfErr result (λ refusal. refusal ≡ WordsRefusal.Usage →
        is_refused (map string_bytes words.entry.now) ≡ true) }
{
    let command = command_line(alloc)?;
    let matches = match command.try_get_matches_from(words) {
        Ok(matches) => matches,
        Err(error) => return answer_to(&error),
    };
    let Some(name) = matches.get_str("command") else {
        return Err(WordsRefusal::Usage);
    };
    let Some(command) = command_named(name) else {
        return Err(WordsRefusal::Usage);
    };
    let Some(deps_word) = matches.get_str("deps") else {
        return Err(WordsRefusal::Usage);
    };
    let Some(deps) = deps_named(deps_word) else {
        return Err(WordsRefusal::Usage);
    };
    let trace = is_given(&matches, "trace");
    let tuple = matches.get_str("tuple");
    let query = matches.get_str("query");
    let workers = matches.get_one::<u32>("workers").unwrap();
    let steps = matches.get_one::<u32>("steps").unwrap();
    let retries = matches.get_one::<u32>("retries").unwrap();
    let count = matches.get_one::<u32>("count").unwrap();
    let seed = matches.get_one::<u32>("seed").unwrap();
    Ok(Request::Command(Options {
        command,
        workers,
        deps,
        steps,
        retries,
        count,
        seed,
        tuple,
        query,
        trace,
    }))
}
