//! Tests of `Content` and `Store`: contents of many rows, against what was written.
#![tactic(auto)]

#[cfg(test)]
mod tests;
