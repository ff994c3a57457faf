//! From the tokens of a text to what the grammar sees of them.

ghost use Rattle.std.specs.Prelude.{◌≡◌, ◌<◌, ◌≤◌, All, IfOk, length};
ghost use Rattle.c_lex.specs.Tokens.{IsInText};
ghost use Rattle.c_parse.specs.Terminals as spec;

use crate::fixed::fixed_word;
use crate::terminal::{Kind, Terminal};
use c_lex::{Token, TokenKind};
use gob_tree::{BinOp, Memory, Seq, Text, Width};
use std::alloc::Global;

#[tactic(auto, using(crate::proofs::Words::name_is))]
fn word_kind(alloc: Global, word: &[u8]) -> Result<Kind, Memory>
    ensures { IfOk result (λ k. k ≡ spec.word_kind word.now) }
{
    match fixed_word(word) {
        Some(kind) => Ok(kind),
        None => {
            let text = Text::of(alloc, word)?;
            Ok(Kind::Name(text))
        }
    }
}

fn short_mark(byte: u8) -> Kind
    ensures { result ≡ spec.short_mark byte }
{
    match byte {
        b'+' => Kind::Plus,
        b'-' => Kind::Minus,
        b'*' => Kind::Star,
        b'/' => Kind::Operator(BinOp::Div),
        b'%' => Kind::Operator(BinOp::Rem),
        b'<' => Kind::Operator(BinOp::Lt),
        b'>' => Kind::Operator(BinOp::Gt),
        b'=' => Kind::Equals,
        b'!' => Kind::Not,
        b'&' => Kind::Ampersand,
        b'(' => Kind::OpenParen,
        b')' => Kind::CloseParen,
        b'{' => Kind::OpenBrace,
        b'}' => Kind::CloseBrace,
        b',' => Kind::Comma,
        _ => Kind::Semicolon,
    }
}

fn long_mark(first: u8, second: u8) -> Kind
    ensures { result ≡ spec.long_mark first second }
{
    match first {
        b'&' => Kind::Operator(BinOp::And),
        b'|' => Kind::Operator(BinOp::Or),
        b'<' => Kind::Operator(BinOp::Le),
        b'>' => Kind::Operator(BinOp::Ge),
        b'!' => Kind::Operator(BinOp::Ne),
        b'=' => Kind::Operator(BinOp::Eq),
        b'*' => Kind::Update(BinOp::Mul),
        b'/' => Kind::Update(BinOp::Div),
        b'%' => Kind::Update(BinOp::Rem),
        b'+' => {
            if second == b'=' {
                Kind::Update(BinOp::Add)
            } else {
                Kind::Step(BinOp::Add)
            }
        }
        _ => {
            if second == b'=' {
                Kind::Update(BinOp::Sub)
            } else {
                Kind::Step(BinOp::Sub)
            }
        }
    }
}

fn mark_kind(mark: &[u8]) -> Kind
    ensures { result ≡ spec.mark_kind mark.now }
{
    match mark {
        [] => Kind::Semicolon,
        [first] => short_mark(*first),
        [first, second, ..] => long_mark(*first, *second),
    }
}

fn written_width(run: &[u8], value: i64) -> Width
    requires { 0 < length run.now }
    ensures { result ≡ spec.written_width run.now value }
{
    let last = run[run.len() - 1];
    if last == b'L' || last == b'l' || 2_147_483_647 < value {
        return Width::W64;
    }
    Width::W32
}

fn terminal_of(alloc: Global, text: &[u8], token: &Token) -> Result<Terminal, Memory>
    requires { IsInText text.now token.now }
    ensures { IfOk result (λ t. t ≡ spec.terminal_of text.now token.now) }
{
    let run = &text[token.start as usize..token.end as usize];
    let kind = match token.kind {
        TokenKind::Word => word_kind(alloc, run)?,
        TokenKind::Number(value) => Kind::Number(value, written_width(run, value)),
        TokenKind::Mark => mark_kind(run),
    };
    Ok(Terminal {
        kind,
        place: token.place,
    })
}

/// The tokens of a text as the grammar sees them; `Memory` is want of memory.
pub(crate) fn terminals_of(
    alloc: Global,
    text: &[u8],
    tokens: &[Token],
) -> Result<Seq<Terminal>, Memory>
    requires { All (IsInText text.now) tokens.now }
    ensures { IfOk result (λ all. all ≡ spec.terminals_of text.now tokens.now) }
{
    let mut all = Vec::with_capacity(alloc, tokens.len())?;
    for token in tokens {
        let terminal = terminal_of(alloc, text, token)?;
        all.push(terminal)?;
    }
    Ok(Seq::from_vec(all))
}
