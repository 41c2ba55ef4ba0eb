//! The generator's script: four sessions that raise and lower their labels, insert rows and count them.
#![tactic(auto)]

mod round;
mod script;
mod size;
#[cfg(test)]
mod tests;

pub use script::{generate, generated};
pub use size::Size;
pub use std::alloc::AllocError as OutOfMemory;
