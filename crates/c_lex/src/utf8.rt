ghost use Rattle.std.specs.Prelude.{◌≡◌, ◌≢◌, ◌+◌, ◌<◌, ◌≤◌, ℕ, Option, OnOk, IfErr, IsUtf8, length, take, drop};
ghost use Rattle.std.specs.Str.{IsErrorLen};
ghost use Rattle.std.specs.Str.Lossy.{utf8_error_len};
ghost use Rattle.c_lex.specs.Places.{BreaksUtf8, place_after};
ghost use Rattle.c_lex.specs.Utf8.{begun_length_of};
ghost use Rattle.c_lex.specs.Tokens.{IsFirstFault};
ghost use Rattle.c_lex.specs.declared.fault.LexFault.TheVariants.{Memory};

use crate::TEXT_LIMIT;
use crate::cursor::Cursor;
use crate::fault::LexFault;

/// Refuses a text that is not UTF-8 (RFC 3629).
pub fn check_utf8(text: &[u8]) -> Result<(), LexFault>
    requires { length text.now ≤ TEXT_LIMIT }
    ensures utf8 { OnOk result (IsUtf8 text.now) }
    ensures fault { IfErr result (IsFirstFault text.now) }
    ensures told { IfErr result (λ fault. fault ≢ Memory) }
{
    match str::from_utf8(text) {
        Ok(_) => Ok(()),
        Err(error) => {
            let valid = error.valid_up_to();
            let begun = begun_length(&text[valid..], error.error_len());
            let cursor = Cursor::start().past(text, valid + begun);
            Err(LexFault::NotText(cursor.place))
        }
    }
}

/// How many bytes at the front of `rest`, which no character begins, could begin one.
fn begun_length(rest: &[u8], error_len: Option<usize>) -> usize
    ensures { result ≡ begun_length_of rest.now error_len }
{
    match error_len {
        None => rest.len(),
        Some(1) => match rest {
            [0xC2..=0xF4, ..] => 1,
            _ => 0,
        },
        Some(length) => length,
    }
}
