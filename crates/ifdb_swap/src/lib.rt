//! A database of a folder, compacted in its place, or looked through.
#![tactic(auto)]

mod compaction;
mod fault;
mod inspection;
mod reading;
mod spare;
mod when;
mod writing;

pub use compaction::compact_in;
pub use fault::{CompactFault, SpareFault};
pub use inspection::{InspectFault, Inspection, inspect_in};
pub use spare::spare_name;
pub use when::When;
