//! The small pieces of texts and lines.
ghost use Rattle.std.specs.Prelude.{◌≡◌, ◌++◌, OnErr, OnOk, decimal};
ghost use Rattle.std.specs.Fmt.{signed_decimal};

use crate::memory::Memory;

/// Adds bytes to a text. Where memory is wanting the text is as it was.
pub fn push_bytes(out: &mut Vec<u8>, bytes: &[u8]) -> Result<(), Memory>
    ensures added { OnOk result (out.new.items ≡ out.old.items ++ bytes.now) }
    ensures kept { OnErr result (out.new.items ≡ out.old.items) }
{
    out.extend_from_slice(bytes)?;
    Ok(())
}

/// Adds a number in decimal digits. Where memory is wanting the text is as it was.
pub fn push_number(out: &mut Vec<u8>, n: usize) -> Result<(), Memory>
    ensures added { OnOk result (out.new.items ≡ out.old.items ++ decimal n) }
    ensures kept { OnErr result (out.new.items ≡ out.old.items) }
{
    let mut buffer = itoa::Buffer::new();
    push_bytes(out, buffer.format(n).as_bytes())
}

/// Adds a number in decimal digits, with a `-` in front where it is less than 0. Where memory is
/// wanting the text is as it was.
pub fn push_signed(out: &mut Vec<u8>, n: i64) -> Result<(), Memory>
    ensures added { OnOk result (out.new.items ≡ out.old.items ++ signed_decimal n) }
    ensures kept { OnErr result (out.new.items ≡ out.old.items) }
{
    let mut buffer = itoa::Buffer::new();
    push_bytes(out, buffer.format(n).as_bytes())
}
