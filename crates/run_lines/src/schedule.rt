//! The reading of schedules.
ghost use Rattle.std.specs.Prelude.{◌≡◌, ◌≢◌, ◌<◌, ◌≤◌, ◌∷◌, ◌+◌, [], List, Option, Some, None, IfOk, IfSome, MatchOption, length, take, drop, pos, option_map};
ghost use Rattle.std.specs.Str.{all_ascii_digits};
ghost use Rattle.run_lines.specs.Schedule.{lines_of, at_blank, number_of, input_of, choice_of, schedule_of};

use c_meaning::Choice;
use gob_tree::{Memory, Seq};
use std::alloc::Global;

/// The first line of a text that isn't empty, and what stands behind its LF.
fn first_line(text: &[u8]) -> (&[u8], &[u8])
    requires { 0 < length text.now }
    ensures lines { lines_of text.now ≡ result.0.now ∷ lines_of result.1.now }
    ensures shorter { length result.1.now < length text.now }
{
    for (i, byte) in text.iter().enumerate() {
        if *byte == b'\n' {
            return (&text[..i], &text[i + 1..]);
        }
    }
    (text, &[])
}

/// What stands before the first blank of a line, and what stands behind it.
fn at_blank(line: &[u8]) -> Option<(&[u8], &[u8])>
    ensures { option_map (λ p. (p.0.now, p.1.now)) result ≡ at_blank line.now }
{
    for (i, byte) in line.iter().enumerate() {
        if *byte == b' ' {
            return Some((&line[..i], &line[i + 1..]));
        }
    }
    None
}

fn are_digits(bytes: &[u8]) -> bool
    ensures { result ≡ all_ascii_digits bytes.now }
{
    for byte in bytes {
        if !byte.is_ascii_digit() {
            return false;
        }
    }
    true
}

/// The number of 1 to `digits` ASCII digits, up to `greatest`.
fn number_in(text: &[u8], digits: usize, greatest: u64) -> Option<u64>
    ensures is { result ≡ number_of digits greatest text.now }
    ensures within { IfSome result (λ n. n ≤ greatest) }
{
    if text.is_empty() || text.len() > digits || !are_digits(text) {
        return None;
    }
    match str::from_utf8(text) {
        Ok(text) => match text.parse::<u64>() {
            Ok(value) => if value <= greatest { Some(value) } else { None },
            Err(_) => None,
        },
        Err(_) => None,
    }
}

/// A number of 64 bits: an optional `-`, and 1 to 19 digits.
fn input_in(text: &[u8]) -> Option<i64>
    ensures { result ≡ input_of text.now }
{
    match text.split_first() {
        None => None,
        Some((first, rest)) => {
            if *first == b'-' {
                match number_in(rest, 19, 9_223_372_036_854_775_808) {
                    Some(number) => Some((-(number as i128)) as i64),
                    None => None,
                }
            } else {
                match number_in(text, 19, 9_223_372_036_854_775_807) {
                    Some(number) => Some(number as i64),
                    None => None,
                }
            }
        }
    }
}

/// The choice of a line; none where the line has another form.
fn choice_in(line: &[u8]) -> Option<Choice>
    ensures { result ≡ choice_of line.now }
{
    match at_blank(line) {
        None => None,
        Some((thread, input)) => match number_in(thread, 9, 999_999_999) {
            None => None,
            Some(thread) => match input_in(input) {
                None => None,
                Some(input) => Some(Choice {
                    thread: thread as u32,
                    input,
                }),
            },
        },
    }
}

/// The choices of a schedule, or the number of its first line that is bad, from 1. A line is the
/// number of a thread, of 1 to 9 digits, one blank, and a number of 64 bits: an optional `-` and 1
/// to 19 digits. Each line ends with LF, which may lack behind the last. `Memory` is want of memory.
pub fn read_schedule(alloc: Global, text: &[u8]) -> Result<Result<Seq<Choice>, u64>, Memory>
    ensures is { IfOk result (λ r. r ≡ schedule_of text.now) }
    ensures few { IfOk result (λ r. IfOk r (λ choices. length choices ≤ length text.now)) }
{
    let mut choices = Seq::new(alloc);
    let mut rest = text;
    let mut line = 1;
    while rest.len() > 0 {
        let (first, behind) = first_line(rest);
        rest = behind;
        match choice_in(first) {
            None => return Ok(Err(line)),
            Some(choice) => choices.push(choice)?,
        }
        line += 1;
    }
    Ok(Ok(choices))
}
