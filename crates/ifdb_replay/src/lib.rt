//! Which steps of a run are kept as records, and that a replay of the records comes to the same log
//! and sessions.
#![tactic(auto)]

mod first_word;
mod laws;
#[cfg(test)]
mod tests;

pub use first_word::only_looks;
pub use laws::{kept_replays, quiet_lines, replay_goes_on, replay_keeps};
