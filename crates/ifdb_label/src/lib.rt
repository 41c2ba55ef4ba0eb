//! Tags, plain and compound, and labels: which tag is below which, and which label flows to which.
//!
//! The behaviour is that of IFDB (D. Schultz and B. Liskov, EuroSys 2013): a label is a set of tags, a compound tag
//! stands for all of its members, and a label flows to another where each of its tags is one of the other's or is a
//! member, at any depth, of one of the other's.
#![tactic(auto)]

mod label;
mod rising;
mod tag;

pub use label::Label;
pub use std::alloc::AllocError as OutOfMemory;
pub use tag::{Tag, TagFault, TagKind, Tags};
