//! A journal of records on a disk. A crash at any moment leaves each record whole or not at all.
#![tactic(auto)]

mod batch;
mod found;
mod journal;
mod laws;
mod record;
mod text;
mod window;

pub use batch::Batch;
pub use journal::Journal;
pub use laws::{held_images, journal_images};
pub use record::{Bytes, JournalFault, Record, RecordKind};
