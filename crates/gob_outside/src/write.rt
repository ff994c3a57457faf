ghost use Rattle.std.specs.Prelude.{◌≡◌, ◌<◌, ◌≤◌, ◌+◌, ◌++◌, length, take, drop, option_map, OnOk, OnErr, IfOk, IfErr};
ghost use Rattle.gob_outside.specs.Count.{Rose};

use crate::failed::Failed;
use crate::sink::Sink;

/// Not all bytes were written: exactly the first `sent` were.
#[derive(Clone, Copy, Debug, PartialEq, Eq)]
pub struct Short {
    /// How many bytes were written.
    pub sent: usize,
}

/// Writes all bytes, in as many pieces as the sink takes, and no memory. `Short` comes only where
/// the sink's count of faults rose; then exactly the first `sent` bytes were written, fewer than
/// all.
pub fn write_all<S: Sink>(sink: &mut S, bytes: &[u8]) -> Result<(), Short>
    ensures all { OnOk result ((S.seen sink.new).written
        ≡ option_map (λ before. before ++ bytes.now) (S.seen sink.old).written) }
    ensures fine { OnOk result ((S.seen sink.new).faults ≡ (S.seen sink.old).faults) }
    ensures fewer { IfErr result (λ short. short.sent < length bytes.now) }
    ensures sent { IfErr result (λ short. (S.seen sink.new).written
        ≡ option_map (λ before. before ++ take short.sent bytes.now) (S.seen sink.old).written) }
    ensures failed { OnErr result (Rose (S.seen sink.old).faults (S.seen sink.new).faults) }
    ensures step { S.write_step sink.old sink.new }
{
    let mut sent = 0;
    while sent < bytes.len() {
        match write_from(sink, bytes, sent) {
            Ok(count) => sent += count,
            Err(Failed) => return Err(Short { sent }),
        }
    }
    Ok(())
}

// One write of the bytes from a place on.
fn write_from<S: Sink>(sink: &mut S, bytes: &[u8], from: usize) -> Result<usize, Failed>
    requires { from < length bytes.now }
    ensures within { IfOk result (λ n. from + n ≤ length bytes.now) }
    ensures moves { IfOk result (λ n. 0 < n) }
    ensures wrote { IfOk result (λ n. (S.seen sink.new).written
        ≡ option_map (λ before. before ++ take n (drop from bytes.now)) (S.seen sink.old).written) }
    ensures fine { OnOk result ((S.seen sink.new).faults ≡ (S.seen sink.old).faults) }
    ensures failed { OnErr result (Rose (S.seen sink.old).faults (S.seen sink.new).faults) }
    ensures kept { OnErr result ((S.seen sink.new).written ≡ (S.seen sink.old).written) }
    ensures step { S.write_step sink.old sink.new }
{
    sink.write(&bytes[from..])
}
