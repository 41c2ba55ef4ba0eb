//! Tests of `serve_link`: connections in memory over one room, and over a room that records in a journal.
#![tactic(auto)]

#[cfg(test)]
mod kept;
#[cfg(test)]
mod over;
#[cfg(test)]
mod tests;
