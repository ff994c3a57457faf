ghost use Rattle.std.specs.Prelude.{◌≡◌, ◌≤◌, ◌<◌, ◌++◌, length, take, option_map, IfOk, OnOk, OnErr};
ghost use Rattle.gob_outside.specs.Count.{Rose};
ghost use Rattle.gob_outside.specs.Sink.{SinkNow};

use crate::failed::Failed;

/// What bytes are written to.
pub trait Sink {
    // What the sink tells: the bytes written so far, and how many writes and flushes failed.
    ghost seen: { Self → SinkNow };
    // What writes and flushes may leave of the object: the object before them, and after.
    ghost write_step: { Self → Self → Type 0 };

    /// Writes the first bytes of `piece`, and gives how many: at least one of a piece that isn't
    /// empty. `Failed` comes only where the count of faults rose, and then nothing was written.
    fn write(&mut self, piece: &[u8]) -> Result<usize, Failed>
        ensures within { IfOk result (λ n. n ≤ length piece.now) }
        ensures moves { IfOk result (λ n. 0 < length piece.now → 0 < n) }
        ensures wrote { IfOk result (λ n. (seen self.new).written
            ≡ option_map (λ before. before ++ take n piece.now) (seen self.old).written) }
        ensures fine { OnOk result ((seen self.new).faults ≡ (seen self.old).faults) }
        ensures failed { OnErr result (Rose (seen self.old).faults (seen self.new).faults) }
        ensures kept { OnErr result ((seen self.new).written ≡ (seen self.old).written) }
        ensures never_falls { (seen self.old).faults ≤ (seen self.new).faults }
        ensures step { write_step self.old self.new };

    /// Has what was written leave any buffer of the sink. `Failed` comes only where the count of
    /// faults rose.
    fn flush(&mut self) -> Result<(), Failed>
        ensures kept { (seen self.new).written ≡ (seen self.old).written }
        ensures fine { OnOk result ((seen self.new).faults ≡ (seen self.old).faults) }
        ensures failed { OnErr result (Rose (seen self.old).faults (seen self.new).faults) }
        ensures never_falls { (seen self.old).faults ≤ (seen self.new).faults }
        ensures step { write_step self.old self.new };

    // No write at all is a step.
    ghost write_stays: { (before : Self) → write_step before before };

    // Steps after one another are a step.
    ghost write_goes_on: { (before between after : Self)
        → write_step before between → write_step between after → write_step before after };
}
