//! The commands and the kinds of dependencies, by name.

ghost use Rattle.std.specs.Prelude.{◌≡◌, None, Some, false};
ghost use Rattle.cmd_words.specs.Names.{command_text, deps_text, first_commands, is_command, is_deps, is_one_of, later_commands};

/// The commands. Each stands in the table `command_text` and in one of the two lists of `specs/Names.antt`, and in `first_named`
/// or `later_named`.
#[derive(Clone, Copy, Debug, PartialEq, Eq)]
pub enum CommandName {
    /// Runs a session's updates.
    Run,
    /// Runs a session's updates one after the other.
    Serial,
    /// Prints a session.
    Format,
    /// Checks a session and its base.
    Check,
    /// Runs a session's updates one after the other, and prints the repository that they leave as a session.
    Save,
    /// Prints a session in the newest format.
    Upgrade,
    /// Runs a session's updates one after the other, and prints the certain answers to a query over the repository that they
    /// leave.
    Ask,
    /// Runs a session's updates one after the other, and prints why a tuple is in the repository that they leave.
    Explain,
    /// Checks whether a trace is a legal history of a session.
    Audit,
    /// Runs the updates of a session that is generated from a seed, and prints a summary.
    Drill,
    /// Runs a session's updates one after the other, and writes their commits as a journal.
    Journal,
    /// Prints the commits and the repository of a journal.
    Recover,
}

/// Which writes a read is taken to depend on.
#[derive(Clone, Copy, Debug, PartialEq, Eq)]
pub enum Deps {
    /// All writes to the relations that it mentions.
    Coarse,
    /// The writes that change its value.
    Precise,
}

// The command with this name, among those that run, read or keep a session.
fn first_named(text: &str) -> Option<CommandName>
    ensures some { (command : CommandName) → result ≡ Some command →
        text.now ≡ command_text command }
    ensures none { result ≡ None → is_one_of first_commands text.now ≡ false }
{
    if text == "run" {
        return Some(CommandName::Run);
    }
    if text == "serial" {
        return Some(CommandName::Serial);
    }
    if text == "format" {
        return Some(CommandName::Format);
    }
    if text == "check" {
        return Some(CommandName::Check);
    }
    if text == "save" {
        return Some(CommandName::Save);
    }
    if text == "upgrade" {
        return Some(CommandName::Upgrade);
    }
    None
}

// The command with this name, among the others.
fn later_named(text: &str) -> Option<CommandName>
    ensures some { (command : CommandName) → result ≡ Some command →
        text.now ≡ command_text command }
    ensures none { result ≡ None → is_one_of later_commands text.now ≡ false }
{
    if text == "ask" {
        return Some(CommandName::Ask);
    }
    if text == "explain" {
        return Some(CommandName::Explain);
    }
    if text == "audit" {
        return Some(CommandName::Audit);
    }
    if text == "drill" {
        return Some(CommandName::Drill);
    }
    if text == "journal" {
        return Some(CommandName::Journal);
    }
    if text == "recover" {
        return Some(CommandName::Recover);
    }
    None
}

/// The command with this name.
pub(crate) fn command_named(text: &str) -> Option<CommandName>
    ensures some { (command : CommandName) → result ≡ Some command →
        text.now ≡ command_text command }
    ensures none { result ≡ None → is_command text.now ≡ false }
{
    match first_named(text) {
        Some(command) => Some(command),
        None => later_named(text),
    }
}

/// The kind of dependencies with this name.
pub(crate) fn deps_named(text: &str) -> Option<Deps>
    ensures some { (deps : Deps) → result ≡ Some deps → text.now ≡ deps_text deps }
    ensures none { result ≡ None → is_deps text.now ≡ false }
{
    if text == "coarse" {
        return Some(Deps::Coarse);
    }
    if text == "precise" {
        return Some(Deps::Precise);
    }
    None
}
