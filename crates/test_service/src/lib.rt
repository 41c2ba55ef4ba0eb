//! Tests of `serve`: a service over a site in memory.
#![tactic(auto)]

#[cfg(test)]
mod tests;
