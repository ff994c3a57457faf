//! The contents of Debug Adapter Protocol messages: a request is read from its JSON, with its
//! arguments checked and the missing ones filled in, and an answer or an event is written as compact
//! JSON.
#![tactic(auto)]

mod arguments;
mod breakpoints;
mod command;
mod fault;
mod field;
mod infos;
mod message;
mod name;
mod read;
mod request;
mod unread;
mod write;

pub use fault::WireFault;
pub use message::{
    BreakInfo, EventBody, FrameInfo, Judgement, Message, Reason, ReplyBody, ThreadInfo,
    VariableInfo,
};
pub use read::read_request;
pub use request::{Ask, BreakAsk, Command, Granularity};
pub use write::write_message;
