//! The tests of `ifdb_keep`: worked rows, a disk that fails at each call, and journals that are cut or damaged.
#![tactic(auto)]

#[cfg(test)]
mod tests;
