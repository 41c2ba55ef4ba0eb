//! Tests of `Out` and `step_line`: texts of replies and meanings of lines.
#![tactic(auto)]

#[cfg(test)]
mod tests;
