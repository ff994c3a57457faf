/// A hop in a numbered graph: the number of its edge, and that of where it leads.
#[derive(Clone, Copy, Debug, PartialEq, Eq)]
pub struct Hop {
    pub edge: u32,
    pub to: usize,
}
