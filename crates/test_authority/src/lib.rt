//! Tests of `Authority`: tables of calls with their answers.
#![tactic(auto)]

#[cfg(test)]
mod tests;
