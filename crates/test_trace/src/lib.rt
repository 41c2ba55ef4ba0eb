//! Tests of `check_trace` and `project`: worked traces and scripts, cuts, limits and faults.
#![tactic(auto)]

#[cfg(test)]
mod tests;
