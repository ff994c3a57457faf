//! The words that are given to `clap`.
ghost use Rattle.std.specs.Prelude.{◌≡◌, ◌&&◌, true, not, Some, None, IfOk, map, option_map, codes, if◌then◌else◌, ◌∷◌};
ghost use Rattle.std.specs.List.{list_all};
ghost use Rattle.std.specs.Option.{option_map_or};
ghost use Rattle.std.specs.Str.{bytes_eq};
ghost use Rattle.command_words.specs.Reading.{goes_to_clap, is_plain, is_right, kind_of, value_after};

use gob_tree::{Memory, Text};
use std::alloc::Global;

/// The words as texts, after the program's name; `None` exactly where a word is not to be given
/// to `clap`.
pub fn texts_of<'a>(alloc: Global, words: &'a [Text]) -> Result<Option<Vec<&'a str>>, Memory>
    ensures { IfOk result (λ o. option_map (λ v. map (λ s. s.now) v.items) o
        ≡ (if list_all goes_to_clap words.entry.now then Some (codes "gobpie" ∷ words.entry.now) else None)) }
{
    let mut texts = Vec::new(alloc);
    texts.push("gobpie")?;
    for word in words {
        let Some(text) = said(word) else {
            return Ok(None);
        };
        texts.push(text)?;
    }
    Ok(Some(texts))
}

/// The word as a text; `None` exactly where it is not to be given to `clap`.
fn said(word: &Text) -> Option<&str>
    ensures { option_map (λ s. s.now) result ≡ (if goes_to_clap word.now then Some word.now else None) }
{
    match word.as_str() {
        Some(text) => {
            if has_right_form(word.as_bytes()) {
                Some(text)
            } else {
                None
            }
        }
        None => None,
    }
}

/// Whether the word isn't `--help`, and is of a kind that has a reading.
fn has_right_form(word: &[u8]) -> bool
    ensures { result ≡ (not (bytes_eq word.now (codes "--help")) && is_right (kind_of word.now)) }
{
    word != b"--help".as_slice() && is_right_word(word)
}

/// Whether the word is a plain one, `--name`, or `--name=value` with a plain value.
fn is_right_word(word: &[u8]) -> bool
    ensures { result ≡ is_right (kind_of word.now) }
{
    if is_plain_word(word) {
        return true;
    }
    if word.len() < 3 || word[0] != b'-' || word[1] != b'-' {
        return false;
    }
    has_plain_value(&word[2..])
}

/// Whether the word isn't empty and has no `-` in front.
fn is_plain_word(word: &[u8]) -> bool
    ensures { result ≡ is_plain word.now }
{
    !word.is_empty() && word[0] != b'-'
}

/// Whether what stands after the first `=` is plain, if there is one.
fn has_plain_value(rest: &[u8]) -> bool
    ensures { result ≡ option_map_or is_plain (value_after rest.now) true }
{
    for (i, byte) in rest.iter().enumerate() {
        if *byte == b'=' {
            return is_plain_word(&rest[i + 1..]);
        }
    }
    true
}
