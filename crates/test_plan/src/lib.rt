//! Tests of the ranges that conditions give a key, and of the parts of a condition.
#![tactic(auto)]

#[cfg(test)]
mod tests;
