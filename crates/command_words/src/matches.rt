//! What `clap` makes of the words.
ghost use Rattle.std.specs.Prelude.{◌≡◌, true, IfOk, map};
ghost use Rattle.clap.specs.Words.{app_of, is_simple, is_simple_and_free};
ghost use Rattle.command_words.specs.ClapForm.{ReadsBy};

use clap::error::ErrorKind;
use clap::{ArgMatches, Command};
use gob_tree::Memory;

/// The matches of the words, the first of which is the program's name; `None` where `clap`
/// refuses them.
pub fn matches_of<'a>(
    command: Command<'a>,
    texts: &'a [&'a str],
) -> Result<Option<ArgMatches<'a>>, Memory>
    ensures { is_simple_and_free (app_of command.entry) ≡ true → is_simple (app_of command.entry) ≡ true
        → IfOk result (ReadsBy (app_of command.entry) (map (λ s. s.now) texts.entry.now)) }
{
    match command.try_get_matches_from(texts) {
        Ok(matches) => Ok(Some(matches)),
        Err(error) => {
            if error.kind() == ErrorKind::OutOfMemory {
                return Err(Memory);
            }
            Ok(None)
        }
    }
}
