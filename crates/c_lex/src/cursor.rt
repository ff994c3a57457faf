ghost use Rattle.std.specs.Prelude.{◌≡◌, ◌+◌, ◌<◌, ◌≤◌, ℕ, List, length};
ghost use Rattle.c_lex.specs.Pieces.{is_space};
ghost use Rattle.c_lex.specs.Places.{place_after};

use crate::TEXT_LIMIT;
use gob_tree::Place;

/// Where a scan stands in a text.
#[derive(Clone, Copy)]
pub struct Cursor {
    /// How many bytes stand before it.
    pub at: usize,
    /// The place of what follows.
    pub place: Place,
    /// Whether only blanks and tabs stand before it on its line.
    pub leads: bool,
}

impl Cursor {
    ghost use Rattle.c_lex.specs.Cursors.{StandsIn};

    /// The front of a text.
    pub fn start() -> Cursor
        ensures front { result.at ≡ 0 }
        ensures stands { (text : List ℕ) → StandsIn text result }
    {
        Cursor {
            at: 0,
            place: Place { line: 1, column: 1 },
            leads: true,
        }
    }

    /// The cursor after the next `count` bytes of the text.
    pub fn past(self, text: &[u8], count: usize) -> Cursor
        requires stands { StandsIn text.now self }
        requires room { self.at + count ≤ length text.now }
        requires limit { length text.now ≤ TEXT_LIMIT }
        ensures after { result.at ≡ self.at + count }
        ensures stands { StandsIn text.now result }
    {
        let mut cursor = self;
        let end = self.at + count;
        while cursor.at < end {
            cursor = cursor.past_byte(text);
        }
        cursor
    }

    /// The cursor after the next byte of the text.
    fn past_byte(self, text: &[u8]) -> Cursor
        requires stands { StandsIn text.now self }
        requires some { self.at < length text.now }
        requires limit { length text.now ≤ TEXT_LIMIT }
        ensures after { result.at ≡ self.at + 1 }
        ensures stands { StandsIn text.now result }
    {
        let byte = text[self.at];
        let Place { line, column } = self.place;
        if byte == b'\n' {
            return Cursor {
                at: self.at + 1,
                place: Place {
                    line: line + 1,
                    column: 1,
                },
                leads: true,
            };
        }
        Cursor {
            at: self.at + 1,
            place: Place {
                line,
                column: column + 1,
            },
            leads: self.leads && is_space(byte),
        }
    }
}

/// The place after the last byte of a text of at most `TEXT_LIMIT` bytes.
pub fn end_place(text: &[u8]) -> Place
    requires { length text.now ≤ TEXT_LIMIT }
    ensures { result ≡ place_after text.now }
{
    Cursor::start().past(text, text.len()).place
}

/// Whether the byte is a blank or a tab.
fn is_space(byte: u8) -> bool
    ensures { result ≡ is_space byte }
{
    byte == b' ' || byte == b'\t'
}
