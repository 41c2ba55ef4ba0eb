//! Primary keys: whether a key is free for a row at a label.
//!
//! A label sees the rows whose labels flow to it, so rows of one key may stand at several labels, none of which flows to
//! another (polyinstantiation). A key is free at a label where the label sees no row of it.
#![tactic(auto)]

mod free;

pub use free::is_free;

#[cfg(test)]
mod tests;
