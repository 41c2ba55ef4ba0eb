//! Tests of the words of `serve`, over sites in memory.
#![tactic(auto)]

#[cfg(test)]
mod tests;
