//! Tests of `ifdb_redo`: worked records as bytes, and bytes that are changed, cut or broken.
#![tactic(auto)]

#[cfg(test)]
mod tests;
