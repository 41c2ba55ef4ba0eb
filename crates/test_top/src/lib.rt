//! Tests of the program by scripts; and how its calls are tried over what stands in memory, for those of its other words.
#![tactic(auto)]

mod begun;
mod calls;
#[cfg(test)]
mod tests;

pub use begun::{Begun, NOTES, VISITS, both};
pub use calls::{
    Calls, EndedMore, Ran, all_of, call, ended, ended_more, failing, run, served, sink, source,
    words_of,
};
