//! The history of a served room: what the turns of its connections added, the steps of the machine
//! that this stands for, and what each session asked and was told in it. There is no code here but
//! a list that takes no memory: contracts alone see the entries.
#![tactic(auto)]

mod entry;
mod ghost_list;

pub use entry::{Entry, Kind, Note};
pub use ghost_list::GhostList;
