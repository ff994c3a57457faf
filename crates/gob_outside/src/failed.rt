/// A call to the outside failed; the object that failed has counted it.
#[derive(Clone, Copy, Debug, PartialEq, Eq)]
pub struct Failed;
