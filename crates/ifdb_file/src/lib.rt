//! Files of the operating system, as disks and shelves.
#![tactic(auto)]

mod disk;
mod read_shelf;
mod shelf;
#[cfg(test)]
mod tests;

pub use disk::FileDisk;
pub use read_shelf::ReadShelf;
pub use shelf::FileShelf;
