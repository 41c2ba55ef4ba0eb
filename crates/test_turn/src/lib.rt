//! Tests of `Turnstile`: threads at one object.
#![tactic(auto)]

#[cfg(test)]
mod tests;
