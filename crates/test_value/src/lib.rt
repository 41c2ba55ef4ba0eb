//! Tests of names, values, lists and boxes.
#![tactic(auto)]

#[cfg(test)]
mod tests;
