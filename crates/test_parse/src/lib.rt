//! Tests of `parse`: lines with the canonical text of their request, or the fault that they have and its place.
#![tactic(auto)]

#[cfg(test)]
mod tests;
