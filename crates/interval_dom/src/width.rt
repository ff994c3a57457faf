//! How many bits a number has.

/// The width of a signed number: 32 bits as C's `int`, or 64 bits as C's `long`.
#[derive(Clone, Copy, Debug, PartialEq, Eq)]
pub enum Width {
    W32,
    W64,
}
