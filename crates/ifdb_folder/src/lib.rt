//! Disks by their names, one of which can take the place of another in one step.
#![tactic(auto)]

mod folder;
mod memory_folder;
mod name;
mod named;

pub use folder::Folder;
pub use memory_folder::MemoryFolder;
pub use name::Name;
pub use named::Named;
