use gob_tree::Placed;

/// What a frame has still to do. `Stmt` is a statement, a `while` before its first test included;
/// `Test` a loop that has begun and whose test comes next; `Last` a `for` that has begun and whose
/// last part comes next (C17, 6.8.5).
#[derive(Drop)]
pub enum Todo {
    Stmt(Placed),
    Test(Placed),
    Last(Placed),
}

/// What a choice comes to: the thread moved, or why it has no step.
#[derive(Clone, Copy, Debug, PartialEq, Eq)]
pub enum Stepped {
    Moved,
    Blocked,
    Faulted,
    Ended,
    NoThread,
}

/// A choice of a run: the number of a thread, from 1, and the number that it gets where it asks
/// for an arbitrary one.
#[derive(Clone, Copy, Debug, PartialEq, Eq)]
pub struct Choice {
    pub thread: u32,
    pub input: i64,
}
