//! What each step on the table tells, as types that the steps are called with.
ghost use Rattle.turn_lock.specs.declared.logged.Role.TheVariants as Role;
ghost use Rattle.turn_lock.specs.Turn.{twin, joined, spent};
ghost use Rattle.turn_lock.specs.Steps.{looked, drew, came, added, left, heard, learnt};

use crate::logged::Logged;
use crate::view::View;
use atomic_table::{Join, Play, Split};

/// Nothing is told.
pub(crate) struct Look;

impl<B, E> Play<Option<B>, View<E>> for Look {
    ghost then = { looked };
}

/// A ticket is drawn.
pub(crate) struct Draw;

impl<B, E> Play<Option<B>, View<E>> for Draw {
    ghost then = { drew };
}

/// The turn has come, if the ticket is served.
pub(crate) struct Come;

impl<B: Logged> Play<Option<B>, View<B::Entry>> for Come {
    ghost then = { came B.kind B.log B.terms_of };
}

/// An entry is added.
pub(crate) struct Add;

impl<B: Logged> Play<Option<B>, View<B::Entry>> for Add {
    ghost then = { added B.log };
}

/// The turn is given on.
pub(crate) struct Leave;

impl<B: Logged> Play<Option<B>, View<B::Entry>> for Leave {
    ghost then = { left B.kind };
}

/// The number of entries is found.
pub(crate) struct Hear;

impl<B, E> Play<Option<B>, View<E>> for Hear {
    ghost then = { heard };
}

/// A pass learns of the one that it took in.
pub(crate) struct Learn;

impl<B: Logged> Play<Option<B>, View<B::Entry>> for Learn {
    ghost then = { learnt B.kind };
}

/// A pass of the opener comes.
pub(crate) struct NewOpener;

impl<E> Split<View<E>> for NewOpener {
    ghost left = { λ v. v };

    ghost right = { twin Role.Opener };
}

/// A pass of a hand comes.
pub(crate) struct NewHand;

impl<E> Split<View<E>> for NewHand {
    ghost left = { λ v. v };

    ghost right = { twin Role.Hand };
}

/// A pass of the worker comes.
pub(crate) struct NewWorker;

impl<E> Split<View<E>> for NewWorker {
    ghost left = { λ v. v };

    ghost right = { twin Role.Worker };
}

/// A pass takes another in.
pub(crate) struct Merge;

impl<E> Join<View<E>> for Merge {
    ghost both = { joined };

    ghost spent = { spent };
}
