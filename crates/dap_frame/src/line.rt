ghost use Rattle.std.specs.Prelude.{◌≡◌, ◌≤◌, IsTrue, length, reverse};
ghost use Rattle.std.specs.Char.{is_ascii_digit};
ghost use Rattle.std.specs.List.{list_all};
ghost use Rattle.dap_frame.specs.Line.{is_visible, is_name, is_length_name, is_value, drop_blanks, trimmed, is_number, number_of, length_line, field_line, line_of};

use crate::bytes::place_of;

/// What a header line says.
#[derive(Clone, Copy, Debug, PartialEq, Eq)]
pub enum Line {
    /// The empty line, which ends the header.
    Empty,
    /// `Content-Length` with a number of bytes.
    Length(u64),
    /// Any other name with a value, which is passed over.
    Other,
    /// No header line, or a `Content-Length` without a number.
    Malformed,
}

/// What a line says, of which the bytes before its LF are given.
pub fn line_of(line: &[u8]) -> Line
    ensures { result ≡ line_of line.now }
{
    match line {
        [b'\r'] => Line::Empty,
        [text @ .., b'\r'] => field_line(text),
        _ => Line::Malformed,
    }
}

/// What a name, a colon and a value say.
fn field_line(text: &[u8]) -> Line
    ensures { result ≡ field_line text.now }
{
    let Some(colon) = place_of(b':', text) else {
        return Line::Malformed;
    };
    let (name, value) = (&text[..colon], &text[colon + 1..]);
    if !is_name(name) || !is_value(value) {
        return Line::Malformed;
    }
    if is_length_name(name) {
        length_line(trimmed(value))
    } else {
        Line::Other
    }
}

fn is_name(name: &[u8]) -> bool
    ensures { result ≡ is_name name.now }
{
    0 < name.len() && are_visible(name)
}

fn are_visible(bytes: &[u8]) -> bool
    ensures { result ≡ list_all is_visible bytes.now }
{
    bytes.iter().all(|b| matches!(*b, 33..=126))
}

fn is_value(value: &[u8]) -> bool
    ensures { result ≡ is_value value.now }
{
    value.iter().all(|b| *b != b'\r' && *b != b'\n')
}

/// Names compare without regard to case.
fn is_length_name(name: &[u8]) -> bool
    ensures { result ≡ is_length_name name.now }
{
    name.eq_ignore_ascii_case(b"Content-Length")
}

/// The value without the blanks and tabs at its ends.
fn trimmed(value: &[u8]) -> &[u8]
    ensures { result.now ≡ trimmed value.now }
{
    without_blanks_after(without_blanks_before(value))
}

fn without_blanks_before(mut value: &[u8]) -> &[u8]
    ensures { result.now ≡ drop_blanks value.now }
{
    while let [b' ' | b'\t', rest @ ..] = value {
        value = rest;
    }
    value
}

fn without_blanks_after(mut value: &[u8]) -> &[u8]
    ensures { result.now ≡ reverse (drop_blanks (reverse value.now)) }
{
    while let [rest @ .., b' ' | b'\t'] = value {
        value = rest;
    }
    value
}

/// What a `Content-Length` with this value says: 1 to 10 digits are a number.
fn length_line(digits: &[u8]) -> Line
    ensures { result ≡ length_line digits.now }
{
    if is_number(digits) {
        Line::Length(number_of(digits))
    } else {
        Line::Malformed
    }
}

fn is_number(digits: &[u8]) -> bool
    ensures { result ≡ is_number digits.now }
{
    1 <= digits.len() && digits.len() <= 10 && are_digits(digits)
}

fn are_digits(bytes: &[u8]) -> bool
    ensures { result ≡ list_all is_ascii_digit bytes.now }
{
    bytes.iter().all(|b| b.is_ascii_digit())
}

fn number_of(digits: &[u8]) -> u64
    requires short { length digits.now ≤ 10 }
    requires digits { IsTrue (list_all is_ascii_digit digits.now) }
    ensures { result ≡ number_of digits.now }
{
    let mut n: u64 = 0;
    for digit in digits {
        n = n * 10 + u64::from(*digit - b'0');
    }
    n
}
