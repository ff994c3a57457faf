use arg_graph::Vertex;
use c_parse::RawExpr;
use gob_tree::Seq;

/// A breakpoint at a node of a function, with or without a condition.
#[derive(Drop)]
pub struct Break {
    pub func: u16,
    pub node: u16,
    pub cond: Option<RawExpr>,
}

/// A stop: the number of its break, counted from 0, and the vertices at which it stops, in the order of
/// unknowns.
#[derive(Drop)]
pub struct Stop {
    pub index: u32,
    pub at: Seq<Vertex>,
}
