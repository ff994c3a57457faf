ghost use Rattle.std.specs.Prelude.{◌≡◌, ◌<◌, ◌^◌, ◌↔◌, length, slice_index, IfSome, IfNone, IsTrue, SomeIff, ℤ, pos};
ghost use Rattle.std.specs.Str.{all_ascii_digits};
ghost use Rattle.std.specs.Str.Parse.{digits_value};
ghost use Rattle.c_lex.specs.Numbers.{without_suffix_of};
ghost use Rattle.c_lex.specs.Pieces.{Spells};

/// The number that a run of letters and digits spells: `0`, or decimal digits without a leading 0,
/// with one `L` or `l` after them or none. `None` where it spells none, or one above
/// 9223372036854775807.
#[tactic(auto, using(crate::proofs::Finds::number_from_digits, crate::proofs::Numerals::no_digits, crate::proofs::Numerals::leading_zero))]
pub fn number_of(run: &[u8]) -> Option<i64>
    ensures found { IfSome result (Spells run.now) }
    ensures none { IfNone result ((value : ℤ) → ¬ (Spells run.now value)) }
{
    let digits = without_suffix(run);
    if digits.is_empty() {
        return None;
    }
    if has_leading_zero(digits) {
        return None;
    }
    value_of(digits)
}

/// Whether a zero stands before other digits.
fn has_leading_zero(digits: &[u8]) -> bool
    ensures { IsTrue result ↔ ((1 < length digits.now) × (slice_index digits.now 0 ≡ 48)) }
{
    1 < digits.len() && digits[0] == b'0'
}

/// The run without the suffix that it may end with.
fn without_suffix(run: &[u8]) -> &[u8]
    ensures { result.now ≡ without_suffix_of run.now }
{
    match run {
        [digits @ .., b'L' | b'l'] => digits,
        _ => run,
    }
}

/// The number that decimal digits write, if it is at most 9223372036854775807.
#[tactic(auto, using(crate::proofs::Numerals::digits_value_more, crate::proofs::Numerals::all_digits_more, crate::proofs::Numerals::digit_at_index, crate::proofs::Numerals::front_value))]
fn value_of(digits: &[u8]) -> Option<i64>
    ensures { SomeIff result
        (IsTrue (all_ascii_digits digits.now) × (digits_value 10 digits.now < 2 ^ 63))
        (pos (digits_value 10 digits.now)) }
{
    let mut value: u64 = 0;
    for digit in digits {
        if !digit.is_ascii_digit() {
            return None;
        }
        value = value
            .checked_mul(10)?
            .checked_add(u64::from(*digit - b'0'))?;
    }
    i64::try_from(value).ok()
}
