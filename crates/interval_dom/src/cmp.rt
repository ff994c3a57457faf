//! The comparisons of two numbers.

ghost use Rattle.std.specs.Prelude.{◌≡◌};
ghost use Rattle.interval_dom.specs.Comparisons.{opposite_of, turned_of};

/// A comparison of two numbers, as C's relational and equality operators have them.
#[derive(Clone, Copy, Debug, PartialEq, Eq)]
pub enum Cmp {
    /// Less than.
    Lt,
    /// Less than or equal to.
    Le,
    /// Greater than.
    Gt,
    /// Greater than or equal to.
    Ge,
    /// Equal to.
    Eq,
    /// Not equal to.
    Ne,
}

impl Cmp {
    /// The comparison that holds where this one fails.
    pub fn opposite(self) -> Cmp
        ensures { result ≡ opposite_of self }
    {
        match self {
            Cmp::Lt => Cmp::Ge,
            Cmp::Le => Cmp::Gt,
            Cmp::Gt => Cmp::Le,
            Cmp::Ge => Cmp::Lt,
            Cmp::Eq => Cmp::Ne,
            Cmp::Ne => Cmp::Eq,
        }
    }

    /// The comparison with the operands in the other order.
    pub fn turned(self) -> Cmp
        ensures { result ≡ turned_of self }
    {
        match self {
            Cmp::Lt => Cmp::Gt,
            Cmp::Le => Cmp::Ge,
            Cmp::Gt => Cmp::Lt,
            Cmp::Ge => Cmp::Le,
            Cmp::Eq => Cmp::Eq,
            Cmp::Ne => Cmp::Ne,
        }
    }
}
