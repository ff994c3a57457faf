use gob_tree::{FuncKind, Seq, Width};

/// What a call has to know of a function: its number among the functions that are defined, its
/// kind, the width of its result and the number of its parameters.
#[derive(Clone, Copy, Debug, PartialEq, Eq)]
pub struct Callee {
    pub number: u16,
    pub kind: FuncKind,
    pub width: Width,
    pub params: usize,
}

/// A function as its head tells it: the number of its definition (0 at a prototype), its kind, and
/// the widths of its result and of its parameters.
#[derive(Drop)]
pub struct Signature {
    pub number: u16,
    pub kind: FuncKind,
    pub width: Width,
    pub params: Seq<Width>,
}

/// What a name means at a place.
#[derive(Clone, Copy, Debug, PartialEq, Eq)]
pub enum Meaning {
    /// A parameter or a local of the type `int` or `long`, by its slot.
    Local(u16),
    /// A thread variable, by its number in the function.
    Thread(u16),
    /// The parameter of a thread function, which can't be used.
    Argument,
    /// A global, by its number, with its width.
    Global(u16, Width),
    /// A mutex, by its number.
    Mutex(u16),
    /// A function.
    Function(Callee),
    /// `__VERIFIER_nondet_int` or `__VERIFIER_nondet_long`.
    Arbitrary(Width),
}

/// A declaration in a function: what the name means from there on, and in how many blocks it
/// stands. The parameters and the outer block of the body have the depth 0.
#[derive(Clone, Copy, Debug, PartialEq, Eq)]
pub struct Declared {
    pub meaning: Meaning,
    pub depth: usize,
}
