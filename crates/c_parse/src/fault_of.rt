//! The fault where the reading of a unit stopped.

ghost use Rattle.std.specs.Prelude.{◌≡◌, ◌≤◌, [], length, drop};
ghost use Rattle.c_parse.specs.Fault as faults;
ghost use Rattle.c_parse.specs.Fault.{IsFault};
ghost use Rattle.c_parse.specs.Grammar.{begins_with, within};
ghost use Rattle.c_parse.specs.Machine.{run, troubled};

use crate::fault::ParseFault;
use crate::stop::Trouble;
use crate::terminal::{Kind, Terminal};
use gob_tree::Place;

/// The place of the first token, or the end of the text.
fn place_or(end: Place, tokens: &[Terminal]) -> Place
    ensures { result ≡ faults.place_or end tokens.now }
{
    match tokens.first() {
        Some(token) => token.place,
        None => end,
    }
}

fn is_unsupported(kind: &Kind) -> bool
    ensures { result ≡ faults.is_unsupported kind.now }
{
    matches!(kind, Kind::Keyword)
}

/// Whether the tokens begin with a keyword of C that the grammar doesn't write.
fn begins_unsupported(tokens: &[Terminal]) -> bool
    ensures { result ≡ begins_with faults.is_unsupported tokens.now }
{
    match tokens.first() {
        Some(token) => is_unsupported(&token.kind),
        None => false,
    }
}

/// The fault of a unit's tokens, of a text with this end, where the reading stopped with so many
/// tokens left.
pub(crate) fn fault_of(trouble: Trouble, left: usize, tokens: &[Terminal], end: Place) -> ParseFault
    requires { run [] (within 0) tokens.now ≡ troubled trouble left }
    ensures { IsFault tokens.now end result }
{
    let (_, rest) = tokens.split_at(tokens.len() - left);
    let place = place_or(end, rest);
    match trouble {
        Trouble::Deep => ParseFault::TooDeep(place),
        Trouble::Bad => {
            if begins_unsupported(rest) {
                return ParseFault::Unsupported(place);
            }
            ParseFault::Unexpected(place)
        }
    }
}
