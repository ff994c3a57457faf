//! The small pieces of printed lines.
ghost use Rattle.std.specs.Prelude.{◌≡◌, ◌++◌, OnOk, codes, decimal};
ghost use Rattle.edition_core.specs.Printed.{interval_text};

use gob_tree::Memory;
use interval_dom::Interval;

/// Adds a text to a line.
pub(crate) fn push_bytes(out: &mut Vec<u8>, bytes: &[u8]) -> Result<(), Memory>
    ensures { OnOk result (out.new.items ≡ out.old.items ++ bytes.now) }
{
    out.extend_from_slice(bytes)?;
    Ok(())
}

/// Adds a number in decimal digits.
pub(crate) fn push_number(out: &mut Vec<u8>, n: usize) -> Result<(), Memory>
    ensures { OnOk result (out.new.items ≡ out.old.items ++ decimal n) }
{
    let mut buffer = itoa::Buffer::new();
    push_bytes(out, buffer.format(n).as_bytes())
}

/// Adds `[lo,hi]`.
pub(crate) fn push_interval(out: &mut Vec<u8>, interval: Interval) -> Result<(), Memory>
    ensures { OnOk result (out.new.items ≡ out.old.items ++ interval_text interval) }
{
    let mut buffer = itoa::Buffer::new();
    push_bytes(out, b"[")?;
    push_bytes(out, buffer.format(interval.lo()).as_bytes())?;
    push_bytes(out, b",")?;
    push_bytes(out, buffer.format(interval.hi()).as_bytes())?;
    push_bytes(out, b"]")
}
