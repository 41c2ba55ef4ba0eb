//! Laws of the whole server of `ifdb_model`: nobody below a level of labels hears what happens above it, and what else
//! holds in every run.
//!
//! Each function has no parameter and does nothing. Its contract is a law, proved of the definitions alone; the words of
//! the laws stand in `specs/`. A level is any list of tags. A session is inside it while its label flows to it.
#![tactic(auto)]

mod byte_laws;
mod line_laws;
mod row_laws;
mod worked;
pub mod worlds;

pub use byte_laws::{bytes_tell_what_is_told, replies_read_back};
pub use line_laws::{
    bye_alone_closes, commits_are_judged, memory_is_never_told, refusals_change_nothing,
    transactions_are_frozen,
};
pub use row_laws::{keys_apart, parents_live, rows_fit};
pub use worked::{
    ceiling_rows, clinic_rows, commit_rows, crossing_rows, label_rows, null_rows, query_rows,
    reference_rows, view_rows, world_rows,
};
