//! A command of any form.
ghost use Rattle.std.specs.Prelude.{◌≡◌, IfOk, drop, map, true};
ghost use Rattle.std.specs.List.{list_all};
ghost use Rattle.clap.specs.Words.{app_of};
ghost use Rattle.command_words.specs.ClapForm.{Reads, app_with, form_of, is_sound};
ghost use Rattle.command_words.specs.Reading.{goes_to_clap};

use crate::arguments::{with_option, with_positional};
use crate::matches::matches_of;
use clap::{ArgMatches, Command};
use gob_tree::Memory;
use std::alloc::Global;

/// A command with these positional words and options.
pub fn command_for<'a>(
    alloc: Global,
    name: &'a str,
    positionals: &'a [&'a str],
    options: &'a [&'a str],
) -> Result<Command<'a>, Memory>
    ensures { IfOk result (λ c. app_of c ≡ app_with name.entry.now (form_of (map (λ s. s.now) positionals.entry.now) (map (λ s. s.now) options.entry.now))) }
{
    let mut command = Command::new(alloc, name);
    for positional in positionals {
        command = with_positional(alloc, command, *positional)?;
    }
    for option in options {
        command = with_option(alloc, command, *option)?;
    }
    Ok(command)
}

/// What `clap` answers at the texts, the first of which is the program's name, for the command of
/// this form; `None` where it refuses them.
pub fn read<'a>(
    alloc: Global,
    name: &'a str,
    positionals: &'a [&'a str],
    options: &'a [&'a str],
    texts: &'a [&'a str],
) -> Result<Option<ArgMatches<'a>>, Memory>
    requires sound { is_sound (form_of (map (λ s. s.now) positionals.now) (map (λ s. s.now) options.now)) ≡ true }
    requires said { list_all goes_to_clap (drop 1 (map (λ s. s.now) texts.now)) ≡ true }
    ensures { IfOk result (Reads (form_of (map (λ s. s.now) positionals.entry.now) (map (λ s. s.now) options.entry.now)) (drop 1 (map (λ s. s.now) texts.entry.now))) }
{
    let command = command_for(alloc, name, positionals, options)?;
    matches_of(command, texts)
}
