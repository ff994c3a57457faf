//! The framing of the Debug Adapter Protocol: the bytes of a connection become messages, the same
//! ones however the bytes are cut into pieces, and a content becomes the bytes that carry it.
#![tactic(auto)]

mod advance;
mod bytes;
mod fault;
mod framer;
mod header;
pub mod laws;
mod line;
mod memory;
mod scan;
mod write;

pub use fault::FrameFault;
pub use framer::Framer;
pub use memory::Memory;
pub use write::frame;
