//! Tests of `Sink` and `sorted`: rows, groups, totals and order of a few combinations.
#![tactic(auto)]

#[cfg(test)]
mod tests;
