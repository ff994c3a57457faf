//! A set of mutexes.

ghost use Rattle.std.specs.Prelude.{◌≡◌, ℕ, ◌<◌, ◌↔◌, ◌⊎◌, ◌≢◌, IsTrue};
ghost use Rattle.lockset_dom.specs.Members.{Holds, IsLockSet, Includes, no_locks, with_member, without_member, shared_members};

use std::marker::Model;

// Members are the numbers below this one.
const MEMBERS: u16 = 8;

/// A set of mutex numbers below 8, as the mutexes that a thread surely holds.
///
/// Contracts see it as a number with `2 ^ m` in its binary digits for each member `m`,
/// and the derived order is that of these numbers.
#[derive(Clone, Copy, Debug, PartialEq, Eq, PartialOrd, Ord, Hash)]
pub struct Locks {
    bits: u8,
}

impl Model for Locks {
    ghost Value = { ℕ };

    ghost view = { λ set. set.bits };

    ghost inverse = { λ n. record { bits = n } };
}

impl Locks {
    /// The set without members.
    pub fn empty() -> Locks
        ensures value { result ≡ no_locks }
        ensures members { (k : ℕ) → Holds result k → ⊥ }
    {
        Locks { bits: 0 }
    }

    /// The set with `m`, which is below 8, added.
    pub fn insert(self, m: u16) -> Locks
        requires { m < MEMBERS }
        ensures value { result ≡ with_member self m }
        ensures members { (k : ℕ) → Holds result k ↔ ((k ≡ m) ⊎ Holds self k) }
        ensures small { IsLockSet result }
    {
        Locks {
            bits: self.bits | 1 << m,
        }
    }

    /// The set with `m` taken out. A set that lacks `m` stays as it is.
    pub fn remove(self, m: u16) -> Locks
        ensures value { result ≡ without_member self m }
        ensures members { (k : ℕ) → Holds result k ↔ ((k ≢ m) × Holds self k) }
        ensures small { IsLockSet result }
    {
        if m < MEMBERS {
            Locks {
                bits: self.bits & !(1 << m),
            }
        } else {
            self
        }
    }

    /// The members that both sets have.
    pub fn meet(self, other: Locks) -> Locks
        ensures value { result ≡ shared_members self other }
        ensures members { (k : ℕ) → Holds result k ↔ (Holds self k × Holds other k) }
        ensures small { IsLockSet result }
    {
        Locks {
            bits: self.bits & other.bits,
        }
    }

    /// Whether `self` has each member of `other`: the more mutexes are surely held, the lower a
    /// set stands.
    pub fn le(self, other: Locks) -> bool
        ensures { IsTrue result ↔ Includes self other }
    {
        self.bits & other.bits == other.bits
    }

    /// Whether `m` is a member, which no number from 8 on is.
    pub fn contains(self, m: u16) -> bool
        ensures { IsTrue result ↔ Holds self m }
    {
        m < MEMBERS && self.bits >> m & 1 == 1
    }

    /// The set as a number with `2 ^ m` for each member `m`.
    pub fn bits(self) -> u8
        ensures value { result ≡ self }
        ensures small { IsLockSet self }
    {
        self.bits
    }
}
