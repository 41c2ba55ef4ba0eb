//! Redo records: what is recorded of each entry of the log, as bytes with a checksum, and any bytes read back.
#![tactic(auto)]

mod crc;
mod fault;
mod laws;
mod reading;
mod record;
mod writing;

pub use crc::checksum;
pub use fault::ReadFault;
pub use laws::{changed_bytes_are_refused, records_are_read_again};
pub use reading::read_record;
pub use record::RedoRecord;
pub use std::alloc::AllocError as OutOfMemory;
pub use writing::{change_text, commit_text};
