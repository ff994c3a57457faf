//! What a value under the lock has to tell of itself.
ghost use Rattle.std.specs.Prelude.{◌≡◌, ℕ, List, length};
ghost use Rattle.turn_lock.specs.Kinds.{Kind};

/// Who uses a pass: the thread that made the lock, a thread that serves, or the one that solves.
#[derive(Clone, Copy, Debug, PartialEq, Eq)]
pub enum Role {
    Opener,
    Hand,
    Worker,
}

/// A value that keeps a list of entries, and has terms that never change.
pub trait Logged {
    /// An entry, as contracts see it.
    type Entry;

    // the entries, in the order in which they were added
    ghost log: { Self → List Self.Entry };

    // who may add an entry, and what it is about
    ghost kind: { Self.Entry → Kind };

    ghost terms_of: { Self → ℕ };

    /// How many entries there are.
    fn entries(&self) -> u64
        ensures { result ≡ length (log self.now) };

    /// The terms, a number that is agreed on for good.
    fn terms(&self) -> u64
        ensures { result ≡ terms_of self.now };
}
