//! Tests of `Journal`: worked rows, a crash at each call of the disk, and bytes that are cut or changed.
#![tactic(auto)]

#[cfg(test)]
mod tests;
