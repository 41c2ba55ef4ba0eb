//! A disk as a program sees it that a crash may end at any moment: what its calls do, and what a
//! crash may leave.
#![tactic(auto)]

mod disk;
mod memory_disk;
mod memory_shelf;
mod shelf;
mod through;
mod track;

pub use disk::Disk;
pub use memory_disk::MemoryDisk;
pub use memory_shelf::MemoryShelf;
pub use shelf::Shelf;
pub use through::write_through;
