ghost use Rattle.std.specs.Prelude.{◌≡◌};
ghost use Rattle.cfg_build.specs.declared.fault.BuildFault.TheVariants as faults;

use gob_tree::Memory;

/// Why a graph isn't built: it would have more than 4,096 nodes or 128 slots, or want of memory.
#[derive(Clone, Copy, Debug, PartialEq, Eq)]
pub enum BuildFault {
    Limit,
    Memory,
}

impl From<Memory> for BuildFault {
    ghost from_gives = { λ _ fault. fault ≡ faults.Memory };

    fn from(_error: Memory) -> BuildFault {
        BuildFault::Memory
    }
}
