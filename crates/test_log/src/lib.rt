//! Tests of `ifdb_log`: the title of a disk, and what lies behind it.
#![tactic(auto)]

#[cfg(test)]
mod tests;
