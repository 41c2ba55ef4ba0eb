//! Foreign keys across labels: which row a child is bound to, and which writes leave a reference without its row.
//!
//! A row is bound to a parent once, when it is written: to the first row of the referred key, in the order of labels, whose
//! label and the child's flow to one another with the tags that the statement declassifies. A reference that is bound holds
//! whatever labels can see of it, so what breaks one is looked for among all rows.
#![tactic(auto)]

mod broken;
mod parent;
mod standpoint;

pub use broken::{LeftRow, first_broken, first_left};
pub use parent::bind_parent;
pub use standpoint::Standpoint;
pub use std::alloc::AllocError as OutOfMemory;
