//! Tests of `run_script`: the limit and long lines.
#![tactic(auto)]

#[cfg(test)]
mod tests;
