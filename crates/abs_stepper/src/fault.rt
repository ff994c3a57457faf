ghost use Rattle.std.specs.Prelude.{◌≡◌};
ghost use Rattle.abs_stepper.specs.declared.fault.MoveFault.TheVariants as move_faults;
ghost use Rattle.abs_stepper.specs.declared.fault.StepFault.TheVariants as faults;

use gob_tree::Memory;

/// Why a position makes no step: no thread of it has the id, the step isn't offered to the thread, or
/// memory is wanting.
#[derive(Clone, Copy, Debug, PartialEq, Eq)]
pub enum StepFault {
    UnknownThread,
    NotOffered,
    Memory,
}

impl From<Memory> for StepFault {
    ghost from_gives = { λ _ fault. fault ≡ faults.Memory };

    fn from(_want: Memory) -> StepFault {
        StepFault::Memory
    }
}

/// Why a thread makes no move: no thread of the position has the id, more than one way leads on, none
/// does, or memory is wanting.
#[derive(Clone, Copy, Debug, PartialEq, Eq)]
pub enum MoveFault {
    UnknownThread,
    Branching,
    NoStep,
    Memory,
}

impl From<Memory> for MoveFault {
    ghost from_gives = { λ _ fault. fault ≡ move_faults.Memory };

    fn from(_want: Memory) -> MoveFault {
        MoveFault::Memory
    }
}
