//! What `clap` knows of the command line.
ghost use Rattle.std.specs.Prelude.{◌≡◌, IfOk};
ghost use Rattle.clap.specs.Words.{app_of, new_rule, with_rule};
ghost use Rattle.rx_command.specs.App as spec;

use clap::{Arg, ArgAction, Command};
use std::alloc::{AllocError, Global};

/// The command with a word more.
fn with_word<'a>(
    alloc: Global,
    command: Command<'a>,
    id: &'a str,
) -> Result<Command<'a>, AllocError>
    ensures { IfOk result (λ c. app_of c ≡ with_rule (app_of command.entry) (new_rule id.entry.now)) }
{
    command.arg(Arg::new(alloc, id))
}

/// The command with an option more.
fn with_option<'a>(
    alloc: Global,
    command: Command<'a>,
    id: &'a str,
) -> Result<Command<'a>, AllocError>
    ensures { IfOk result (λ c. app_of c ≡ with_rule (app_of command.entry)
        (spec.option_rule id.entry.now)) }
{
    command.arg(Arg::new(alloc, id).long(id))
}

/// The command with an option without a value more.
fn with_flag<'a>(
    alloc: Global,
    command: Command<'a>,
    id: &'a str,
) -> Result<Command<'a>, AllocError>
    ensures { IfOk result (λ c. app_of c ≡ with_rule (app_of command.entry)
        (spec.flag_rule id.entry.now)) }
{
    command.arg(Arg::new(alloc, id).long(id).action(ArgAction::SetTrue))
}

/// The command with its words in order.
fn with_words<'a>(alloc: Global, command: Command<'a>) -> Result<Command<'a>, AllocError>
    ensures { IfOk result (λ c. app_of c ≡ spec.with_words (app_of command.entry)) }
{
    let command = with_word(alloc, command, "mode")?;
    let command = with_word(alloc, command, "file")?;
    let command = with_word(alloc, command, "first")?;
    let command = with_word(alloc, command, "second")?;
    with_word(alloc, command, "log")
}

/// The command with its options.
fn with_options<'a>(alloc: Global, command: Command<'a>) -> Result<Command<'a>, AllocError>
    ensures { IfOk result (λ c. app_of c ≡ spec.with_options (app_of command.entry)) }
{
    let command = with_option(alloc, command, "pre")?;
    let command = with_option(alloc, command, "depth")?;
    let command = with_option(alloc, command, "budget")?;
    let command = with_option(alloc, command, "box")?;
    let command = with_option(alloc, command, "rounds")?;
    with_flag(alloc, command, "int32")
}

/// The command line of the program, as `clap` takes it: five words, five options and a flag, and
/// none for help.
pub fn command_app<'a>(alloc: Global) -> Result<Command<'a>, AllocError>
    ensures { IfOk result (λ c. app_of c ≡ spec.command_app) }
{
    let command = Command::new(alloc, "ctrl").disable_help_flag(true);
    with_options(alloc, with_words(alloc, command)?)
}
