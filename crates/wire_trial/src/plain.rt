//! One request of each command, and one message of each kind.
mod messages;
mod requests;
