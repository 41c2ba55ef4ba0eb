//! Tests of `bind`: requests over one catalog, each with its tree or its first refusal.
#![tactic(auto)]

#[cfg(test)]
mod tests;
