//! Tests of `closure_script`: worked scripts.
#![tactic(auto)]

#[cfg(test)]
mod tests;
