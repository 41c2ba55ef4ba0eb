//! Tests of `MemoryDisk` and `MemoryShelf`: what calls answer and what a crash leaves.
#![tactic(auto)]

#[cfg(test)]
mod tests;
