ghost use Rattle.std.specs.Prelude.{◌≡◌};

use crate::sink::Sink;
use crate::source::Source;

/// A source and a sink on one object, of which neither touches what the other means.
pub trait Connection: Source + Sink {
    // A read leaves what was written, and the faults of writes, as they were.
    ghost read_leaves: { (before after : Self) → Self.read_step before after
        → Self.seen after ≡ Self.seen before };

    // A write or a flush leaves the bytes still to come, the ends of the input and the faults of
    // reads as they were.
    ghost write_leaves: { (before after : Self) → Self.write_step before after
        → (Self.left after ≡ Self.left before) × (Self.ends after ≡ Self.ends before)
        × (Self.read_faults after ≡ Self.read_faults before) };
}
