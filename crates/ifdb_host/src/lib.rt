//! A database over a log on a disk, that is shared by threads, and closed.
//!
//! A function that is bounded by `Origin` has `ifdb_reopen::reopen` make the database again, and one that is bounded by `Begins`
//! has it begin its history: each is called by one that picks what its bound names. What comes of it is shared by threads as
//! `ifdb_session` says, and `Database::close` ends it.
#![tactic(auto)]

mod counts;
mod database;
mod end;
mod plan;
mod serving;

pub use database::{Closed, Database};
pub use end::HostEnd;
pub use plan::Plan;
pub use serving::{Hosted, host};
