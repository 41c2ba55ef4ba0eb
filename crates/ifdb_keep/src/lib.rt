//! A script run over a journal: what was acknowledged is there after a crash at any moment.
#![tactic(auto)]

mod keep;
mod keeper;
mod laws;
mod resume;

pub use keep::{KeepEnd, keep_script};
pub use laws::{acknowledged_is_kept, first_keep_is_a_run, next_keep_goes_on};
