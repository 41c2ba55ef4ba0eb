//! Workers: each has a door and a host, and the host serves the connections that come through the
//! door, in a thread of the worker's own.
#![tactic(auto)]

mod host;
mod pool;
mod worker;

pub use host::Host;
pub use pool::run_all;
pub use worker::Worker;

#[cfg(test)]
mod tests;
