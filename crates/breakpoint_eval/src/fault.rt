ghost use Rattle.std.specs.Prelude.{◌≡◌};
ghost use Rattle.breakpoint_eval.specs.declared.fault.WatchFault.TheVariants as faults;

use gob_tree::Memory;

/// Why an expression isn't watched: a name of it is neither a declared int local nor a global, or memory
/// is wanting.
#[derive(Clone, Copy, Debug, PartialEq, Eq)]
pub enum WatchFault {
    Name,
    Memory,
}

impl From<Memory> for WatchFault {
    ghost from_gives = { λ _ fault. fault ≡ faults.Memory };

    fn from(_want: Memory) -> WatchFault {
        WatchFault::Memory
    }
}
