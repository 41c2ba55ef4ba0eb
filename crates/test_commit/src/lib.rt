//! Tests of `verdict`: COMMITs over a store of five commits.
#![tactic(auto)]

#[cfg(test)]
mod tests;
