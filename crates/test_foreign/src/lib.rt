//! Tests of `bind_parent`, `first_broken` and `first_left`: eight plain rows at four labels.
#![tactic(auto)]

#[cfg(test)]
mod tests;
