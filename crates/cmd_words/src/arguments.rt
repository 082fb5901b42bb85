//! The one simple command by which `clap` reads the words.

ghost use Rattle.std.specs.Prelude.{◌≡◌, IfOk, false};
ghost use Rattle.clap.specs.Words.{app_of, rule_of};
ghost use Rattle.cmd_words.specs.Arguments.{bare_app, command_rule, deps_rule, number_rule, text_rule, trace_rule, work_app, youtopia_app};

use crate::help::VERSION;
use clap::builder::ValueParser;
use clap::{Arg, ArgAction, Command};
use std::alloc::{AllocError, Global};

// An option of this name whose value is a number from `low` to `high`, with a default.
fn number<'a>(alloc: Global, name: &'a str, low: u32, high: u32, fallback: &'a str) -> Arg<'a>
    ensures rule { rule_of result ≡ number_rule name.entry.now low high fallback.entry.now }
    ensures local { result.global ≡ false }
{
    Arg::new(alloc, name)
        .long(name)
        .value_parser(ValueParser::Signed(low as i64, high as i64))
        .action(ArgAction::Set)
        .default_value(fallback)
}

// An option of this name whose value is a text.
fn text<'a>(alloc: Global, name: &'a str) -> Arg<'a>
    ensures rule { rule_of result ≡ text_rule name.entry.now }
    ensures local { result.global ≡ false }
{
    Arg::new(alloc, name).long(name)
}

fn command_arg<'a>(alloc: Global) -> Arg<'a>
    ensures rule { rule_of result ≡ command_rule }
    ensures local { result.global ≡ false }
{
    Arg::new(alloc, "command").required(true)
}

fn deps_arg<'a>(alloc: Global) -> Arg<'a>
    ensures rule { rule_of result ≡ deps_rule }
    ensures local { result.global ≡ false }
{
    text(alloc, "deps").default_value("precise")
}

fn trace_arg<'a>(alloc: Global) -> Arg<'a>
    ensures rule { rule_of result ≡ trace_rule }
    ensures local { result.global ≡ false }
{
    text(alloc, "trace").action(ArgAction::SetTrue)
}

fn bare<'a>(alloc: Global) -> Command<'a>
    ensures { app_of result ≡ bare_app }
{
    Command::new(alloc, "youtopia")
        .version(VERSION)
        .no_binary_name(true)
}

// The command with its first arguments: the command's name and the options for the workers.
fn work_line<'a>(alloc: Global) -> Result<Command<'a>, AllocError>
    ensures { IfOk result (λ command. app_of command ≡ work_app) }
{
    bare(alloc)
        .arg(command_arg(alloc))?
        .arg(number(alloc, "workers", 1, 16, "4"))?
        .arg(deps_arg(alloc))?
        .arg(number(alloc, "steps", 1, 300, "100"))?
        .arg(number(alloc, "retries", 0, 4, "3"))
}

/// The command with all its arguments.
pub(crate) fn command_line<'a>(alloc: Global) -> Result<Command<'a>, AllocError>
    ensures { IfOk result (λ command. app_of command ≡ youtopia_app) }
{
    work_line(alloc)?
        .arg(text(alloc, "tuple"))?
        .arg(number(alloc, "count", 1, 1000, "60"))?
        .arg(number(alloc, "seed", 0, 4294967295, "1"))?
        .arg(trace_arg(alloc))?
        .arg(text(alloc, "query"))
}
