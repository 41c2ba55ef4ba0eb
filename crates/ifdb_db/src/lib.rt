//! The running server: sessions with labels and transactions, the public state, and rows that each label sees its own part of.
#![tactic(auto)]

mod begins;
mod db;
mod fitting;
mod lent;
mod look;
mod looks;
mod note;
mod reading;
mod room;
mod session;
mod sessions;
mod told;
mod txn;

pub use db::RedoFault;
pub use look::Look;
pub use note::Note;
pub use reading::ReadLine;
pub use room::{Room, ServedRoom};
pub use session::Session;
pub use sessions::{AllSessions, OpenSessions, Sessions};
pub use std::alloc::AllocError as OutOfMemory;
