//! What the table under the lock keeps of each pass, and its rule. All of it is for proofs alone.
use crate::logged::{Logged, Role};
use atomic_table::TableRule;
use std::collections::LinkedList;
use std::marker::PhantomData;
use std::snapshot::Snapshot;

/// Where a pass stands.
pub enum Place {
    /// It has no ticket.
    Outside,
    /// It waits with this ticket.
    Waiting(u64),
    /// It has the turn, by this ticket.
    Inside(u64),
    /// Another pass took it in.
    Spent,
}

/// What a pass had seen, and its own places.
pub struct Record<E> {
    pub seen: LinkedList<E>,
    pub mine: LinkedList<u64>,
}

/// What a pass knows. No value of it is made.
pub struct View<E> {
    pub role: Role,
    pub terms: u64,
    pub place: Place,
    /// The entries that it has seen.
    pub seen: LinkedList<E>,
    /// The places, among these, of its own entries.
    pub mine: LinkedList<u64>,
    /// How many entries it saw at each take.
    pub looks: LinkedList<u64>,
    /// How many entries there are at least.
    pub least: u64,
    /// What the two had that its last join made one.
    pub first: Record<E>,
    pub second: Record<E>,
}

/// The rule of the table, which has the next ticket, the ticket that is served and the number of
/// entries as its words, and one slot for the value.
pub struct Turns<B> {
    of: PhantomData<B>,
}

impl<B: Logged> TableRule<Option<B>, View<B::Entry>, Snapshot<B>> for Turns<B> {
    ghost use Rattle.turn_lock.specs.Turn.{Turned, opener_view};

    ghost holds = { λ key. Turned B.kind B.log B.terms_of (B.terms_of key.value) };

    ghost first = { λ key. opener_view (B.terms_of key.value) (B.log key.value) };
}
