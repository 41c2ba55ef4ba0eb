//! What a SELECT answers over the rows of its sources: combinations in their written order, none of which is built that a
//! condition has ruled out, and whose equalities are found by search.
#![tactic(auto)]

mod fetch;
mod find;
mod given;
mod index;
mod look_up;
mod nested_loops;
mod probe;
mod reading;
mod select;
mod source;
mod view_row;
mod walk;

pub use given::Given;
pub use reading::Reading;
pub use select::{answer, combine, matching};
pub use std::alloc::AllocError as OutOfMemory;
pub use view_row::{ViewRow, ViewRows};
