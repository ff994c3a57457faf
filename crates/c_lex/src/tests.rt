//! Worked texts, each with the tokens or the fault that it has.

use crate::{LexFault, Token, TokenKind, lex};
use gob_tree::Place;
use std::alloc::Global;
use std::test::Fail;

fn push_fault(alloc: Global, out: &mut String, name: &str, place: Place) -> Result<(), Fail> {
    let Place { line, column } = place;
    let told = format!(in alloc; "{name} {line}:{column}")?;
    out.push_str(told.as_str())?;
    Ok(())
}

fn push_bytes(out: &mut String, bytes: &[u8]) -> Result<(), Fail> {
    for byte in bytes {
        out.push(char::from(*byte))?;
    }
    Ok(())
}

/// A number as its value, a word or a mark as its text, and a blank after each.
fn push_token(alloc: Global, out: &mut String, text: &[u8], token: Token) -> Result<(), Fail> {
    match token.kind {
        TokenKind::Number(value) => {
            let told = format!(in alloc; "{value}")?;
            out.push_str(told.as_str())?;
        }
        TokenKind::Word | TokenKind::Mark => {
            let part = text.get(token.start as usize..token.end as usize);
            push_bytes(out, part.unwrap_or(b"?"))?;
        }
    }
    out.push(' ')?;
    Ok(())
}

/// The tokens of a text, or its fault with its place.
fn told(alloc: Global, text: &[u8]) -> Result<String, Fail> {
    let mut out = String::new(alloc);
    match lex(alloc, text) {
        Ok(tokens) => {
            for token in tokens.as_slice() {
                push_token(alloc, &mut out, text, *token)?;
            }
        }
        Err(LexFault::TooLong) => out.push_str("TooLong")?,
        Err(LexFault::Memory) => out.push_str("Memory")?,
        Err(LexFault::NotText(place)) => push_fault(alloc, &mut out, "NotText", place)?,
        Err(LexFault::BadCharacter(place)) => push_fault(alloc, &mut out, "BadCharacter", place)?,
        Err(LexFault::OpenComment(place)) => push_fault(alloc, &mut out, "OpenComment", place)?,
        Err(LexFault::BadLiteral(place)) => push_fault(alloc, &mut out, "BadLiteral", place)?,
        Err(LexFault::Unsupported(place)) => push_fault(alloc, &mut out, "Unsupported", place)?,
    }
    Ok(out)
}

#[test]
fn marks(rt: HostRuntime) -> Result<(), Fail> {
    let all = "++ -- += -= *= /= %= == != <= >= && || + - * / % = < > ! & ( ) { } , ; ";
    for (text, want) in [
        (all, all),
        ("+++", "++ + "),
        ("---=", "-- -= "),
        ("+==", "+= = "),
        ("<==", "<= = "),
        (">>=", "> >= "),
        ("===", "== = "),
        ("!==", "!= = "),
        ("!!=", "! != "),
        ("&&&", "&& & "),
        ("||||", "|| || "),
        ("*=/%=", "*= / %= "),
        ("&|", "BadCharacter 1:2"),
        ("a-->b", "a -- > b "),
        ("({,;})", "( { , ; } ) "),
    ] {
        assert_eq!(rt; told(rt.alloc(), text.as_bytes())?.as_str(), want, "{text}");
    }
    Ok(())
}

#[test]
fn words_and_numbers(rt: HostRuntime) -> Result<(), Fail> {
    for (text, want) in [
        ("007", "BadLiteral 1:1"),
        ("0", "0 "),
        ("0L", "0 "),
        ("00", "BadLiteral 1:1"),
        ("10l", "10 "),
        ("2147483648", "2147483648 "),
        ("9223372036854775807", "9223372036854775807 "),
        ("9223372036854775807L", "9223372036854775807 "),
        ("9223372036854775808", "BadLiteral 1:1"),
        ("18446744073709551617", "BadLiteral 1:1"),
        ("1LL", "BadLiteral 1:1"),
        ("1u", "BadLiteral 1:1"),
        ("0x1F", "BadLiteral 1:1"),
        ("12ab", "BadLiteral 1:1"),
        ("1_", "BadLiteral 1:1"),
        ("x12_y _9 L", "x12_y _9 L "),
        ("int main(void) { return 007; }", "BadLiteral 1:25"),
        ("x=-1;", "x = - 1 ; "),
        ("1.5", "BadCharacter 1:2"),
    ] {
        assert_eq!(rt; told(rt.alloc(), text.as_bytes())?.as_str(), want, "{text}");
    }
    Ok(())
}

#[test]
fn dropped_pieces(rt: HostRuntime) -> Result<(), Fail> {
    for (text, want) in [
        ("", ""),
        (" \t\r\n", ""),
        ("a/* b */c", "a c "),
        ("/*/", "OpenComment 1:1"),
        ("/**/a", "a "),
        ("/***/a", "a "),
        ("/* /* */ */", "* / "),
        ("a /*\n* /", "OpenComment 1:3"),
        ("a // b", "a "),
        ("//", ""),
        ("// \u{e9} /*\nb", "b "),
        ("/* \u{20ac} */ b", "b "),
        ("a\r\nb // c\r\nd", "a b d "),
    ] {
        assert_eq!(rt; told(rt.alloc(), text.as_bytes())?.as_str(), want, "{text}");
    }
    Ok(())
}

#[test]
fn lines_of_directives(rt: HostRuntime) -> Result<(), Fail> {
    for (text, want) in [
        ("#include <stdio.h>\nint", "int "),
        ("int\n#include \"a.h\" @ /*\nx", "int x "),
        ("int\n \t#includefoo", "int "),
        ("int #include <a.h>", "BadCharacter 1:5"),
        ("/* */ #include <a.h>", "BadCharacter 1:7"),
        ("\r#include <a.h>", "BadCharacter 1:2"),
        ("# include <a.h>", "Unsupported 1:1"),
        ("a\n\t#define A", "Unsupported 2:2"),
        ("#includ", "Unsupported 1:1"),
        ("a /*\n*/ #", "BadCharacter 2:4"),
        ("a\n\tb\n c @", "BadCharacter 3:4"),
    ] {
        assert_eq!(rt; told(rt.alloc(), text.as_bytes())?.as_str(), want, "{text}");
    }
    Ok(())
}

#[test]
fn bytes_that_are_no_text(rt: HostRuntime) -> Result<(), Fail> {
    for (bytes, want) in [
        (b"a\n\xFF".as_slice(), "NotText 2:1"),
        (b"\x80".as_slice(), "NotText 1:1"),
        (b"a\xC3".as_slice(), "NotText 1:3"),
        (b"a\xC3b".as_slice(), "NotText 1:3"),
        (b"\xE2\x82".as_slice(), "NotText 1:3"),
        (b"\xED\xA0\x80".as_slice(), "NotText 1:2"),
        (b"\xF0\x9F\x98!".as_slice(), "NotText 1:4"),
        (b"@\xC0\xAF".as_slice(), "NotText 1:2"),
        (b"\xC3\xA9".as_slice(), "BadCharacter 1:1"),
    ] {
        assert_eq!(rt; told(rt.alloc(), bytes)?.as_str(), want);
    }
    Ok(())
}

#[test]
fn longest_text(rt: HostRuntime) -> Result<(), Fail> {
    let mut bytes = vec![in rt.alloc(); b' '; 65_536]?;
    assert_eq!(rt; told(rt.alloc(), bytes.as_slice())?.as_str(), "");
    bytes.push(b'a')?;
    assert_eq!(rt; told(rt.alloc(), bytes.as_slice())?.as_str(), "TooLong");
    Ok(())
}

#[test]
fn places_of_tokens(rt: HostRuntime) -> Result<(), Fail> {
    let tokens = lex(rt.alloc(), b"int x;\n\tx = 7L;")?;
    let place = Place { line: 2, column: 6 };
    let seven = Token {
        kind: TokenKind::Number(7),
        place,
        start: 12,
        end: 14,
    };
    assert_eq!(rt; tokens.len(), 7);
    assert_eq!(rt; tokens[5], seven);
    Ok(())
}
