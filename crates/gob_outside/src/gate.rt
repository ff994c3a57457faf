/// What is told of the worker's and the sessions' progress, for tests of how they overlap. A call
/// may wait.
pub trait Gate {
    /// The worker took the job of this edit.
    fn taken(&self, edit: u32);

    /// The session wrote a reply, its `count`-th, counted from 1.
    fn replied(&self, session: u32, count: u64);
}

/// A gate that is always open: it does nothing.
#[derive(Clone, Copy, Debug, PartialEq, Eq)]
pub struct OpenGate;

impl Gate for OpenGate {
    fn taken(&self, _edit: u32) {}

    fn replied(&self, _session: u32, _count: u64) {}
}

#[cfg(test)]
mod tests {
    use super::*;

    #[test]
    fn an_open_gate_returns(_rt: HostRuntime) {
        OpenGate.taken(1);
        OpenGate.replied(1, 1);
    }
}
