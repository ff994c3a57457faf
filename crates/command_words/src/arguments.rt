//! The arguments of a command.
ghost use Rattle.std.specs.Prelude.{◌≡◌, IfOk};
ghost use Rattle.clap.specs.Words.{app_of, with_rule};
ghost use Rattle.command_words.specs.ClapForm.{option_arg, positional_arg};

use clap::{Arg, ArgAction, Command};
use gob_tree::Memory;
use std::alloc::Global;

/// The command with one more positional word.
pub fn with_positional<'a>(
    alloc: Global,
    command: Command<'a>,
    name: &'a str,
) -> Result<Command<'a>, Memory>
    ensures { IfOk result (λ c. app_of c ≡ with_rule (app_of command.entry) (positional_arg name.entry.now)) }
{
    let arg = Arg::new(alloc, name).required(true).action(ArgAction::Set);
    let command = command.arg(arg)?;
    Ok(command)
}

/// The command with one more option.
pub fn with_option<'a>(
    alloc: Global,
    command: Command<'a>,
    name: &'a str,
) -> Result<Command<'a>, Memory>
    ensures { IfOk result (λ c. app_of c ≡ with_rule (app_of command.entry) (option_arg name.entry.now)) }
{
    let arg = Arg::new(alloc, name).long(name).action(ArgAction::Set);
    let command = command.arg(arg)?;
    Ok(command)
}
