//! Values, names and their lists: what every part of the database speaks of.
//!
//! Contracts see a `Word` and a `Name` as their bytes, a `Sequence` as a list, and a `Box` and a `Shared` as what they
//! hold, so that trees of them are plain data: two with the same parts are equal.
#![tactic(auto)]

mod arithmetic;
mod boxed;
mod column;
mod ids;
mod name;
mod sequence;
mod shared;
mod shared_list;
mod value;
mod word;

pub use arithmetic::{add, mul, sub};
pub use boxed::Box;
pub use column::{Column, Columns, Names};
pub use ids::{Principal, TableId, ViewId};
pub use name::{LONGEST_NAME, Name, NameFault, names_are_bounded};
pub use sequence::Sequence;
pub use shared::Shared;
pub use shared_list::SharedList;
pub use std::alloc::AllocError as OutOfMemory;
pub use value::{Compare, TermKind, Value, ValueKind, ValueRow, ValueRows};
pub use word::Word;
