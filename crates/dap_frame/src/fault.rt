ghost use Rattle.std.specs.Prelude.{◌≡◌};
ghost use Rattle.dap_frame.specs.declared.fault.FrameFault.TheVariants as frame;

use crate::memory::Memory;
use thiserror::Error;

/// Why a stream gives no further message. A place is the number of bytes of the stream before it.
#[derive(Clone, Copy, Debug, PartialEq, Eq, Error)]
pub enum FrameFault {
    /// A header line is malformed, has a bad length or gives the length again (told at the line's
    /// first byte); the empty line came without a length (told there); or the header's first
    /// 4,096 bytes hold no empty line (told at the header's first byte).
    #[error("bad header at byte {at}")]
    BadHeader { at: u64 },
    /// The length `n` is more than 1,048,576. Told at the line of the length, once the empty line
    /// is read.
    #[error("a content of {n} bytes is too long, at byte {at}")]
    TooLong { at: u64, n: u64 },
    /// There was no memory.
    #[error("out of memory")]
    Memory,
}

impl From<Memory> for FrameFault {
    ghost from_gives = { λ _ e. e ≡ frame.Memory };

    fn from(_error: Memory) -> FrameFault {
        FrameFault::Memory
    }
}
