use gob_tree::Edge;

/// An edge, and whether it is silent: no step of the program's tree belongs to it.
#[derive(Drop)]
pub(crate) struct Marked {
    pub edge: Edge,
    pub silent: bool,
}
