use constraint_sys::Key;

/// A point that isn't Bottom: a node of a function in a context. The derived order is the order of
/// unknowns: by function, then key, then node.
#[derive(Clone, Copy, Debug, PartialEq, Eq, PartialOrd, Ord, Hash)]
pub struct Vertex {
    pub func: u16,
    pub key: Key,
    pub node: u16,
}

/// How a step is taken, with the number of an edge in its function, counted from 0: it does an edge
/// that isn't a call, goes over a call to its end, enters the called function, or goes on in the
/// thread that an edge starts. `Leave` goes back to the caller, and belongs to a stack.
#[derive(Clone, Copy, Debug, PartialEq, Eq)]
pub enum Label {
    Do(u32),
    Over(u32),
    Enter(u32),
    Thread(u32),
    Leave,
}

/// A step from a vertex, and the vertex that it leads to.
#[derive(Clone, Copy, Debug, PartialEq, Eq)]
pub struct Step {
    pub label: Label,
    pub to: Vertex,
}
