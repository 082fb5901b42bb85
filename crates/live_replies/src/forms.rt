//! The forms of the commands that are no statements of a session.
ghost use Rattle.std.specs.Prelude.{◌≡◌, IfOk};
ghost use Rattle.lang_forms.specs.Views.{words_of};
ghost use Rattle.def_language.specs.Parts.{name_at};
ghost use Rattle.live_replies.specs.Commands.{AskQuestion, AskWithdrawal, alone, labelled};
ghost use Rattle.live_replies.specs.Meanings.{command_meant, said_meant};

use crate::commands::{Command, Said};
use base_types::Memory;
use lang_forms::{FormRefusal, Words, name_at};
use std::alloc::Global;

/// The command, if no word follows.
pub(crate) fn alone(rest: Words<'_>, command: Command) -> Said
    ensures { said_meant result ≡ alone (words_of rest.entry) (command_meant command) }
{
    match rest.split_first() {
        Some(_) => Said::NoForm,
        None => Said::Asks(command),
    }
}

/// A withdrawal, from the words after `withdraw`.
pub(crate) fn withdrawal_at(alloc: Global, rest: Words<'_>) -> Result<Said, Memory>
    ensures { IfOk result (λ said. said_meant said ≡
        labelled (name_at (words_of rest.entry)) AskWithdrawal) }
{
    match name_at(alloc, rest) {
        Ok((label, after)) => Ok(alone(after, Command::Withdraw(label))),
        Err(FormRefusal::Memory) => Err(Memory),
        Err(_) => Ok(Said::NoForm),
    }
}

/// The command that shows a question, from the words after `question`.
pub(crate) fn question_at(alloc: Global, rest: Words<'_>) -> Result<Said, Memory>
    ensures { IfOk result (λ said. said_meant said ≡
        labelled (name_at (words_of rest.entry)) AskQuestion) }
{
    match name_at(alloc, rest) {
        Ok((label, after)) => Ok(alone(after, Command::Question(label))),
        Err(FormRefusal::Memory) => Err(Memory),
        Err(_) => Ok(Said::NoForm),
    }
}
