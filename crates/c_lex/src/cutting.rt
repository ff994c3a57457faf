ghost use Rattle.std.specs.Prelude.{◌≡◌, ◌+◌, ◌<◌, ◌≤◌, ◌≢◌, None, IfOk, IfErr, IsErrOf, OnOk, option_map, length, take, drop};
ghost use Rattle.c_lex.specs.declared.fault.LexFault.TheVariants.{TooLong, Memory};
ghost use Rattle.c_lex.specs.Cursors.{StandsIn};
ghost use Rattle.c_lex.specs.Found.{FindsPiece};
ghost use Rattle.c_lex.specs.Places.{place_after, leads_line};
ghost use Rattle.c_lex.specs.Tokens.{AreTokens, Breaks, IsFirstFault, IsReadable, fault_of, kind_of};

use crate::TEXT_LIMIT;
use crate::cursor::Cursor;
use crate::fault::LexFault;
use crate::piece::{Found, Shape, piece_at};
use crate::token::{Token, TokenKind};
use crate::utf8::check_utf8;
use std::alloc::Global;

/// The tokens of a text, in order: those of its one longest cut. Blanks, comments and lines of
/// `#include` are dropped (C17 5.1.1.2 and 6.4, without splices and preprocessing).
///
/// An error is the first fault of the text, or `Memory`.
pub fn lex(alloc: Global, text: &[u8]) -> Result<Vec<Token>, LexFault>
    ensures tokens { IfOk result (λ tokens. AreTokens text.now tokens.items) }
    ensures fault { IfErr result (IsFirstFault text.now) }
{
    if TEXT_LIMIT < text.len() {
        return Err(LexFault::TooLong);
    }
    check_utf8(text)?;
    cut(alloc, text)
}

/// Cuts a text from its front on, up to its end or its first fault.
fn cut(alloc: Global, text: &[u8]) -> Result<Vec<Token>, LexFault>
    requires { IsReadable text.now }
    ensures tokens { IfOk result (λ tokens. AreTokens text.now tokens.items) }
    ensures fault { IfErr result (IsFirstFault text.now) }
{
    let mut tokens = Vec::new(alloc);
    let mut cursor = Cursor::start();
    while cursor.at < text.len() {
        let found = next_piece(text, cursor)?;
        if let Some(kind) = kind_of(found.shape) {
            tokens.push(token(kind, cursor, found.length))?;
        }
        cursor = cursor.past(text, found.length);
    }
    Ok(tokens)
}

/// The longest piece at the cursor, unless it is a fault.
fn next_piece(text: &[u8], cursor: Cursor) -> Result<Found, LexFault>
    requires stands { StandsIn text.now cursor }
    requires some { cursor.at < length text.now }
    ensures found { IfOk result (FindsPiece (leads_line (take cursor.at text.now)) (drop cursor.at text.now)) }
    ensures sound { IfOk result (λ found. fault_of found.shape (place_after (take cursor.at text.now)) ≡ None) }
    ensures fault { IfErr result (Breaks (take cursor.at text.now) (drop cursor.at text.now)) }
{
    let Some(found) = piece_at(cursor.leads, &text[cursor.at..]) else {
        return Err(LexFault::BadCharacter(cursor.place));
    };
    match found.shape {
        Shape::Unclosed => Err(LexFault::OpenComment(cursor.place)),
        Shape::Directive => Err(LexFault::Unsupported(cursor.place)),
        Shape::BadNumber => Err(LexFault::BadLiteral(cursor.place)),
        _ => Ok(found),
    }
}

/// The kind of the token that a piece makes; a dropped piece makes none.
fn kind_of(shape: Shape) -> Option<TokenKind>
    ensures { result ≡ kind_of shape }
{
    match shape {
        Shape::Kept(kind) => Some(kind),
        _ => None,
    }
}

/// The token of `length` bytes at the cursor.
fn token(kind: TokenKind, cursor: Cursor, length: usize) -> Token
    requires { cursor.at + length ≤ TEXT_LIMIT }
    ensures { result ≡ record { kind = kind; place = cursor.place; start = cursor.at; end = cursor.at + length } }
{
    Token {
        kind,
        place: cursor.place,
        start: cursor.at as u32,
        end: (cursor.at + length) as u32,
    }
}
