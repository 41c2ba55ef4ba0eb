//! Tests of a database's file that is compacted in its place.
#![tactic(auto)]

#[cfg(test)]
mod tests;
