//! A database made again from its file: the title, and behind it the records of its log.
//!
//! `ifdb_log::entitle` sees that a disk begins with the title. A function that is bounded by `Origin` then has `reopen` make the
//! database again: it is called by one that picks what its bound names.
#![tactic(auto)]

mod laws;
mod reopening;

pub use laws::{files_are_restarted, title_is_a_file};
pub use reopening::{Means, NotReopened, Reopened, reopen};
