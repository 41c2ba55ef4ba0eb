//! What a request sees: a snapshot of the public state and of the rows, and what HELLO, labels, queries and writes come to over it.
//!
//! Inside a transaction the snapshot is that of its BEGIN with its own writes; outside it is what all see. Nothing is changed here.
#![tactic(auto)]

mod hello;
mod label;
mod public_state;
mod select;
mod shared_state;
mod snapshot;
mod views;
mod write;

pub use public_state::PublicState;
pub use shared_state::SharedState;
pub use snapshot::Snapshot;
pub use std::alloc::AllocError as OutOfMemory;
