use abs_stepper::{MoveFault, StepFault};
use breakpoint_eval::WatchFault;
use c_parse::ExprFault;
use gob_tree::Memory;

/// Why a question has no answer: the text has no edition; the line has no node; what is asked about is
/// no vertex or no expression, or has an unknown name; a step is refused; or memory is wanting.
#[derive(Clone, Copy, Debug, PartialEq, Eq)]
pub enum Unanswered {
    NoEdition,
    NoNode,
    NoVertex,
    NotAnExpression,
    Name,
    UnknownThread,
    NotOffered,
    Branching,
    NoStep,
    Memory,
}

impl From<Memory> for Unanswered {
    fn from(_want: Memory) -> Unanswered {
        Unanswered::Memory
    }
}

impl From<StepFault> for Unanswered {
    fn from(fault: StepFault) -> Unanswered {
        match fault {
            StepFault::UnknownThread => Unanswered::UnknownThread,
            StepFault::NotOffered => Unanswered::NotOffered,
            StepFault::Memory => Unanswered::Memory,
        }
    }
}

impl From<MoveFault> for Unanswered {
    fn from(fault: MoveFault) -> Unanswered {
        match fault {
            MoveFault::UnknownThread => Unanswered::UnknownThread,
            MoveFault::Branching => Unanswered::Branching,
            MoveFault::NoStep => Unanswered::NoStep,
            MoveFault::Memory => Unanswered::Memory,
        }
    }
}

impl From<ExprFault> for Unanswered {
    fn from(fault: ExprFault) -> Unanswered {
        match fault {
            ExprFault::NotAnExpression => Unanswered::NotAnExpression,
            ExprFault::Memory => Unanswered::Memory,
        }
    }
}

impl From<WatchFault> for Unanswered {
    fn from(fault: WatchFault) -> Unanswered {
        match fault {
            WatchFault::Name => Unanswered::Name,
            WatchFault::Memory => Unanswered::Memory,
        }
    }
}
