//! What answers the lines of a loop's connections: the room that all loops share.
#![tactic(auto)]

mod desk;
mod place;

pub use desk::Desk;
pub use place::Place;
