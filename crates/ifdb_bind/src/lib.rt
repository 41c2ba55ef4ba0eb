//! Requests with numbers for their names, or their first refusal.
#![tactic(auto)]

mod binding;
mod inserts;
mod names;
mod tables;
mod views;
mod writes;

pub use binding::bind;
pub use ifdb_catalog::OutOfMemory;
pub use inserts::values_fit;
