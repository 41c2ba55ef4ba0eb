//! Admin by a key of the server's own: what is heard of a line, and the key that a file holds.
#![tactic(auto)]

mod admin_key;
mod heard;
mod key_file;
mod laws;

pub use admin_key::{AdminKey, LONGEST_KEY};
pub use heard::{Heard, heard_in};
pub use key_file::read_key;
pub use laws::{admin_is_heard_by_key, others_are_heard_as_said};
pub use std::alloc::AllocError as OutOfMemory;
