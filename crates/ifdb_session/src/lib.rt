//! Sessions of connections: each connection is a session of one room, which all share by turns.
#![tactic(auto)]

mod cleared;
mod counts;
mod durable;
mod ending;
mod host;
mod in_memory;
mod link;
mod records;
mod seat;
mod settles;
mod shared;
mod turns;
mod work;

pub use cleared::cleared_stay_inside;
pub use counts::Counts;
pub use durable::{Begins, Durable};
pub use ending::Ending;
pub use host::SessionHost;
pub use in_memory::InMemory;
pub use link::serve_link;
pub use records::Records;
pub use seat::Seat;
pub use settles::Settles;
pub use shared::SharedRoom;
pub use std::alloc::AllocError as OutOfMemory;
pub use turns::{Outcome, ask, leave, open};
pub use work::Work;
