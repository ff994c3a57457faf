use gob_tree::{Seq, Width};

/// What an evaluation stops at: an input that isn't there yet, or a fault.
#[derive(Drop)]
pub enum Demand {
    /// The value of a global.
    Global(u16),
    /// An arbitrary number of a width.
    Nondet(Width),
    /// The result of a call with these arguments.
    Call(u16, Seq<i64>),
    /// A division or remainder by zero (C17, 6.5.5), which no input mends.
    Fault,
}
