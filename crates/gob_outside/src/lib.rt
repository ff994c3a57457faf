//! What a program reads from and writes to: files, sources and sinks of bytes, and doors that give
//! connections. The traits say what a caller may rely on and count each failure; objects in memory
//! and adapters of the system's files, streams and sockets meet them.
#![tactic(auto)]

mod calls;
mod connection;
mod door;
mod failed;
mod faults;
mod files;
mod gate;
mod mem_conn;
mod mem_door;
mod mem_files;
mod mem_sink;
mod mem_source;
mod sink;
mod source;
mod std_desk;
mod std_files;
mod std_out;
mod streams;
mod tcp;
mod write;

pub use connection::Connection;
pub use door::Door;
pub use failed::Failed;
pub use files::{FileFail, Files};
pub use gate::{Gate, OpenGate};
pub use mem_conn::MemConn;
pub use mem_door::MemDoor;
pub use mem_files::MemFiles;
pub use mem_sink::MemSink;
pub use mem_source::MemSource;
pub use sink::Sink;
pub use source::Source;
pub use std_desk::StdDesk;
pub use std_files::StdFiles;
pub use std_out::StdOut;
pub use tcp::{TcpConn, TcpDoor};
pub use write::{Short, write_all};
