use crate::vertex::Vertex;
use gob_tree::Seq;

/// A frame of a stack: where it stands, and the number of the edge by which the next frame was
/// entered, which is `None` exactly in the last.
#[derive(Clone, Copy, Debug, PartialEq, Eq)]
pub struct Frame {
    pub vertex: Vertex,
    pub call: Option<u32>,
}

/// The frames of a thread, the root first and the top last.
pub type Stack = Seq<Frame>;
