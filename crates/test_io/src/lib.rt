//! Tests of `LineReader`, `write_all`, and of links, doors and sites in memory.
#![tactic(auto)]

#[cfg(test)]
mod tests;
