ghost use Rattle.std.specs.Prelude.{◌≡◌, ◌<◌, ◌≤◌, ◌∷◌, [], ◌↔◌, IfSome, IfNone, IsTrue, not, length, take_while, slice_index, MatchOption};
ghost use Rattle.std.specs.Char.{is_ascii_digit};
ghost use Rattle.std.specs.List.{prefix_len};
ghost use Rattle.c_lex.specs.Found.{FindsPiece, IsLongestMark, NoMark};
ghost use Rattle.c_lex.specs.Pieces.{NoPiece, is_blank, is_line_end, is_mark};
ghost use Rattle.gob_tree.specs.Words.{is_word_byte, is_word_head};

use crate::number::number_of;
use crate::token::TokenKind;

/// What a piece of a text is: one that makes a token, one that is dropped, or one that is a fault.
#[derive(Clone, Copy, Debug, PartialEq, Eq)]
pub enum Shape {
    /// One blank, tab, carriage return or line feed.
    Blank,
    /// From `//` to the end of the line.
    LineComment,
    /// From `/*` to the first `*/` after it.
    BlockComment,
    /// A line that begins with `#include`, without its end.
    Include,
    /// A token.
    Kept(TokenKind),
    /// A `/*` without end, and all that follows it.
    Unclosed,
    /// The `#` that another line begins with.
    Directive,
    /// A run of letters and digits that begins with a digit and is no number.
    BadNumber,
}

/// The longest piece at a place, and how many bytes it has.
#[derive(Clone, Copy)]
pub struct Found {
    pub shape: Shape,
    pub length: usize,
}

/// The longest piece that begins `rest`, where `leads` says whether only blanks and tabs stand before
/// it on its line. `None` where no piece begins there.
pub fn piece_at(leads: bool, rest: &[u8]) -> Option<Found>
    ensures found { IfSome result (FindsPiece leads rest.now) }
    ensures none { IfNone result (NoPiece leads rest.now) }
{
    if rest.is_empty() {
        return None;
    }
    let first = rest[0];
    if is_blank(first) {
        Some(Found {
            shape: Shape::Blank,
            length: 1,
        })
    } else if first == b'#' {
        directive_at(leads, rest)
    } else if first == b'/' {
        Some(slash_at(leads, rest))
    } else if first.is_ascii_digit() {
        Some(number_at(leads, rest))
    } else if is_word_head(first) {
        Some(Found {
            shape: Shape::Kept(TokenKind::Word),
            length: word_length(rest),
        })
    } else {
        let length = mark_length(rest)?;
        Some(Found {
            shape: Shape::Kept(TokenKind::Mark),
            length,
        })
    }
}

/// Whether the byte is a blank, a tab, a carriage return or a line feed.
fn is_blank(byte: u8) -> bool
    ensures { result ≡ is_blank byte }
{
    matches!(byte, b' ' | b'\t' | b'\r' | b'\n')
}

/// Whether the byte may begin a word.
fn is_word_head(byte: u8) -> bool
    ensures { result ≡ is_word_head byte }
{
    byte.is_ascii_alphabetic() || byte == b'_'
}

/// The line that begins with the `#` at the front.
fn directive_at(leads: bool, rest: &[u8]) -> Option<Found>
    requires some { 0 < length rest.now }
    requires first { slice_index rest.now 0 ≡ 35 }
    ensures found { IfSome result (FindsPiece leads rest.now) }
    ensures none { IfNone result (NoPiece leads rest.now) }
{
    if !leads {
        return None;
    }
    Some(if rest.starts_with(b"#include") {
        Found {
            shape: Shape::Include,
            length: line_length(rest),
        }
    } else {
        Found {
            shape: Shape::Directive,
            length: 1,
        }
    })
}

/// The comment or the mark that begins with the `/` at the front.
fn slash_at(leads: bool, rest: &[u8]) -> Found
    requires some { 0 < length rest.now }
    requires first { slice_index rest.now 0 ≡ 47 }
    ensures { FindsPiece leads rest.now result }
{
    let second = second_of(rest);
    if second == b'/' {
        Found {
            shape: Shape::LineComment,
            length: line_length(rest),
        }
    } else if second == b'*' {
        comment_at(leads, rest)
    } else if second == b'=' {
        Found {
            shape: Shape::Kept(TokenKind::Mark),
            length: 2,
        }
    } else {
        Found {
            shape: Shape::Kept(TokenKind::Mark),
            length: 1,
        }
    }
}

/// The second byte, or 0 where there is none.
fn second_of(rest: &[u8]) -> u8
    ensures { result ≡ slice_index rest.now 1 }
{
    rest.get(1).copied().unwrap_or(0)
}

/// The comment that begins with the `/*` at the front.
fn comment_at(leads: bool, rest: &[u8]) -> Found
    requires some { 1 < length rest.now }
    requires first { slice_index rest.now 0 ≡ 47 }
    requires second { slice_index rest.now 1 ≡ 42 }
    ensures { FindsPiece leads rest.now result }
{
    for i in 3..rest.len() {
        if rest[i - 1] == b'*' && rest[i] == b'/' {
            return Found {
                shape: Shape::BlockComment,
                length: i + 1,
            };
        }
    }
    Found {
        shape: Shape::Unclosed,
        length: rest.len(),
    }
}

/// The run that begins with the digit at the front.
fn number_at(leads: bool, rest: &[u8]) -> Found
    requires some { 0 < length rest.now }
    requires first { IsTrue (is_ascii_digit (slice_index rest.now 0)) }
    ensures { FindsPiece leads rest.now result }
{
    let length = word_length(rest);
    match number_of(&rest[..length]) {
        Some(value) => Found {
            shape: Shape::Kept(TokenKind::Number(value)),
            length,
        },
        None => Found {
            shape: Shape::BadNumber,
            length,
        },
    }
}

/// How many bytes at the front may stand within a word.
fn word_length(rest: &[u8]) -> usize
    ensures { result ≡ prefix_len is_word_byte rest.now }
{
    rest.iter()
        .take_while(|b| is_word_head(**b) || b.is_ascii_digit())
        .count()
}

/// How many bytes stand before the end of the line.
fn line_length(rest: &[u8]) -> usize
    ensures { result ≡ prefix_len (λ b. not (is_line_end b)) rest.now }
{
    rest.iter().take_while(|b| **b != b'\n').count()
}

/// How many bytes the longest mark at the front has.
fn mark_length(rest: &[u8]) -> Option<usize>
    ensures found { IfSome result (IsLongestMark rest.now) }
    ensures none { IfNone result (NoMark rest.now) }
{
    match rest {
        [a, b, ..] if is_pair(*a, *b) => Some(2),
        [a, ..] if is_single(*a) => Some(1),
        _ => None,
    }
}

/// Whether the byte is a mark.
fn is_single(a: u8) -> bool
    ensures { result ≡ is_mark (a ∷ []) }
{
    matches!(
        a,
        b'+' | b'-'
            | b'*'
            | b'/'
            | b'%'
            | b'='
            | b'<'
            | b'>'
            | b'!'
            | b'&'
            | b'('
            | b')'
            | b'{'
            | b'}'
            | b','
            | b';'
    )
}

/// Whether the two bytes are one mark.
fn is_pair(a: u8, b: u8) -> bool
    ensures { result ≡ is_mark (a ∷ b ∷ []) }
{
    match a {
        b'+' | b'-' => b == a || b == b'=',
        b'*' | b'/' | b'%' | b'=' | b'!' | b'<' | b'>' => b == b'=',
        b'&' | b'|' => b == a,
        _ => false,
    }
}
