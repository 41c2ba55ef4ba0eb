//! Tests of `Tags` and `Label`: a diamond of compounds, with the answers written by hand.
#![tactic(auto)]

#[cfg(test)]
mod tests;
