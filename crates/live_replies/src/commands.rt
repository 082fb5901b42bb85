//! What the line of a command says.
ghost use Rattle.std.specs.Prelude.{◌≡◌, ◌∷◌, Ok, IfOk};
ghost use Rattle.def_language.specs.Forms.{Updates, statement_at};
ghost use Rattle.def_language.specs.Names.{same_name};
ghost use Rattle.def_language.specs.Words.{name};
ghost use Rattle.lang_forms.specs.Statements.{statement_of};
ghost use Rattle.lang_forms.specs.Views.{words_of};
ghost use Rattle.live_replies.specs.Commands.{command_at, line_says, stated, words_say};
ghost use Rattle.live_replies.specs.Meanings.{said_meant};

use crate::forms::{alone, question_at, withdrawal_at};
use base_types::{Memory, Name};
use lang_forms::{
    FormRefusal, RawChoice, RawOperation, RawStatement, Section, Word, Words, statement_at,
};
use lang_session::is_text;
use std::alloc::Global;

/// What a curator asks for.
#[derive(Debug, Drop)]
pub enum Command {
    /// To admit an update with its label, curator and operation.
    Update(Name, Name, RawOperation),
    /// A step of the lowest update that is ready.
    Step,
    /// A delivery to the lowest update that a recorded answer waits for.
    Deliver,
    /// To answer the question of the update with the label.
    Answer(Name, RawChoice),
    /// To withdraw the update with the label.
    Withdraw(Name),
    /// To show the question of the update with the label.
    Question(Name),
    /// To end the conversation.
    Quit,
}

/// What a line says.
#[derive(Debug, Drop)]
pub(crate) enum Said {
    /// Nothing: the line is blank.
    Nothing,
    /// The line is no command.
    NoForm,
    /// The line asks for this command.
    Asks(Command),
}

fn same_name(name: &[u8], word: &[u8]) -> bool
    ensures { result ≡ same_name name.now word.now }
{
    name == word
}

// The command that a statement of a session makes, if it is an update or an answer.
fn stated(statement: RawStatement) -> Said
    ensures { said_meant result ≡ stated (Ok (statement_of statement)) }
{
    match statement {
        RawStatement::Update(label, curator, operation) => {
            Said::Asks(Command::Update(label, curator, operation))
        }
        RawStatement::Answer(label, choice) => Said::Asks(Command::Answer(label, choice)),
        _ => Said::NoForm,
    }
}

// An update or an answer, spelled as in a session of format 1.
fn stated_at(alloc: Global, words: Words<'_>) -> Result<Said, Memory>
    ensures { IfOk result (λ said. said_meant said ≡
        stated (statement_at Updates 1 (words_of words.entry))) }
{
    match statement_at(alloc, Section::Updates, 1, words) {
        Ok(statement) => Ok(stated(statement)),
        Err(FormRefusal::Memory) => Err(Memory),
        Err(_) => Ok(Said::NoForm),
    }
}

// What the words say that begin with the name `first`, followed by `rest`.
fn command_at(
    alloc: Global,
    first: &[u8],
    rest: Words<'_>,
    words: Words<'_>,
) -> Result<Said, Memory>
    requires first { words_of words ≡ name first.now ∷ words_of rest }
    ensures { IfOk result (λ said. said_meant said ≡ command_at first.now (words_of rest.entry)) }
{
    if same_name(first, b"step") {
        return Ok(alone(rest, Command::Step));
    }
    if same_name(first, b"deliver") {
        return Ok(alone(rest, Command::Deliver));
    }
    if same_name(first, b"quit") {
        return Ok(alone(rest, Command::Quit));
    }
    if same_name(first, b"withdraw") {
        return withdrawal_at(alloc, rest);
    }
    if same_name(first, b"question") {
        return question_at(alloc, rest);
    }
    stated_at(alloc, words)
}

// What the words of a line say.
fn said_by(alloc: Global, words: Words<'_>) -> Result<Said, Memory>
    ensures { IfOk result (λ said. said_meant said ≡ words_say (words_of words.entry)) }
{
    match words.split_first() {
        None => Ok(Said::Nothing),
        Some((Word::Name(name), rest)) => command_at(alloc, name, rest, words),
        Some(_) => Ok(Said::NoForm),
    }
}

/// What a line says.
pub(crate) fn line_said(alloc: Global, line: &[u8]) -> Result<Said, Memory>
    ensures said { IfOk result (λ said. said_meant said ≡ line_says line.now) }
{
    if !is_text(line) {
        return Ok(Said::NoForm);
    }
    match Words::of(line) {
        Ok(words) => said_by(alloc, words),
        Err(_) => Ok(Said::NoForm),
    }
}
