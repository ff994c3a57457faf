use lockset_dom::Locks;

/// What a context knows of an argument: there is none, it is 0, it is 1, or it may be any number.
#[derive(Clone, Copy, Debug, PartialEq, Eq, PartialOrd, Ord, Hash)]
pub enum ArgKey {
    Absent,
    Zero,
    One,
    Any,
}

/// A context: what is known of the first two arguments, and the mutexes that the caller holds.
#[derive(Clone, Copy, Debug, PartialEq, Eq, PartialOrd, Ord, Hash)]
pub struct Key {
    pub a: ArgKey,
    pub b: ArgKey,
    pub locks: Locks,
}

/// An unknown of the system: a node of a function in a context, or a global. The derived order is
/// the order of unknowns: points by function, then key, then node; then the globals.
#[derive(Clone, Copy, Debug, PartialEq, Eq, PartialOrd, Ord, Hash)]
pub enum Unknown {
    Point { func: u16, key: Key, node: u16 },
    Global(u16),
}
