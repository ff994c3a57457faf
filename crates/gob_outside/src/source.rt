ghost use Rattle.std.specs.Prelude.{◌≡◌, ℕ, ◌≤◌, ◌<◌, ◌↔◌, List, [], length, Option, IfOk, OnOk, OnErr, IfSome};
ghost use Rattle.gob_outside.specs.Count.{Rose};
ghost use Rattle.gob_outside.specs.Source.{Takes};

use crate::failed::Failed;

/// What bytes are read from.
pub trait Source {
    // The bytes still to come, where the source tells them.
    ghost left: { Self → Option (List ℕ) };
    // How many reads failed.
    ghost read_faults: { Self → ℕ };
    // How often the input was found at its end.
    ghost ends: { Self → ℕ };
    // What reads may leave of the object: the object before them, and after.
    ghost read_step: { Self → Self → Type 0 };

    /// Puts the next bytes at the front of `into`, and gives how many. 0 for an `into` that isn't
    /// empty is the end of the input; it comes only where the count of ends rose, and where the
    /// source tells its bytes exactly where none is left. `Failed` comes only where the count of
    /// faults rose, and then no byte was taken.
    fn read(&mut self, into: &mut [u8]) -> Result<usize, Failed>
        ensures within { IfOk result (λ n. n ≤ length into.new) }
        ensures taken { IfOk result (λ n. Takes (left self.old) n into.new (left self.new)) }
        ensures kept { OnErr result (left self.new ≡ left self.old) }

        ensures end { IfOk result (λ n. n ≡ 0 → 0 < length into.old → Rose (ends self.old) (ends self.new)) }
        ensures end_told { IfOk result (λ n. 0 < length into.old
            → IfSome (left self.old) (λ bytes. (n ≡ 0) ↔ (bytes ≡ []))) }
        ensures goes_on { IfOk result (λ n. 0 < n → ends self.new ≡ ends self.old) }
        ensures ends_never_fall { ends self.old ≤ ends self.new }

        ensures fine { OnOk result (read_faults self.new ≡ read_faults self.old) }
        ensures failed { OnErr result (Rose (read_faults self.old) (read_faults self.new)) }
        ensures never_falls { read_faults self.old ≤ read_faults self.new }
        ensures step { read_step self.old self.new };

    // No read at all is a step.
    ghost read_stays: { (before : Self) → read_step before before };

    // Steps after one another are a step.
    ghost read_goes_on: { (before between after : Self)
        → read_step before between → read_step between after → read_step before after };
}
