//! The service of gates: a loop for each, in a thread of its own, over one room that all connections share.
#![tactic(auto)]

mod gates;
mod work;
mod workers;

pub use gates::{Unserved, serve_gates};
