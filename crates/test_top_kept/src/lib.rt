//! Tests of the words of `keep`, `check`, `project` and `closures`.
#![tactic(auto)]

#[cfg(test)]
mod tests;
