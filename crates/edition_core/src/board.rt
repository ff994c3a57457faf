/// What became of an edit: an edition of it was published; it was withheld, since its budget was spent
/// or for want of memory; or there is no such edit.
#[derive(Clone, Copy, Debug, PartialEq, Eq)]
pub enum Verdict {
    Published,
    Budget,
    Memory,
    Unknown,
}

/// The number of edits so far, and the number of the last edition that was published, 0 for none.
#[derive(Clone, Copy, Debug, PartialEq, Eq)]
pub struct BoardStatus {
    pub edits: u32,
    pub published: u32,
}
