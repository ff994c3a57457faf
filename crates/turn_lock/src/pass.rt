use crate::logged::Logged;
use crate::view::View;
use atomic_table::Seat;
use std::marker::Model;

/// What one thread knows of a lock, and its right to take the turn. A pass is used with the lock
/// that it comes from.
#[derive(Drop)]
pub struct Pass<B: Logged> {
    pub(crate) seat: Seat<Option<B>, View<B::Entry>>,
    /// How many entries it has seen.
    pub(crate) count: u64,
}

impl<B: Logged> Model for Pass<B> {
    ghost use Rattle.turn_lock.specs.Known.{Known, known_of};
    ghost use Rattle.turn_lock.specs.Standing.{IsPass};

    ghost Value = { Known B.Entry };

    ghost view = { λ p. known_of p.seat.table_id p.seat.me.0 };

    ghost invariant = { λ p. IsPass B.kind p.count p.seat.table_id p.seat.me };
}
