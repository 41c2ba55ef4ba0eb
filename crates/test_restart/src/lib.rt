//! Tests of a restart: a history logged on a disk in memory, and made again from it.
#![tactic(auto)]

#[cfg(test)]
mod tests;
