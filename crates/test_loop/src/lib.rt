//! Tests of `ifdb_loop`: whole loops in memory, in pieces, with waits and faults.
#![tactic(auto)]

mod echo;
#[cfg(test)]
mod tests;

pub use echo::Echo;
