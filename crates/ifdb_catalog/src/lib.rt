//! The public state: principals, tags, grants, tables and views; its changes; and what a request's names stand for in it.
#![tactic(auto)]

mod catalog;
mod given;
mod laws;

pub use catalog::{Catalog, Credentials};
pub use given::are_given;
pub use ifdb_bound::Relation;
pub use laws::{
    bound_changes_are_new, bound_requests_fit, bound_requests_stay_fitting, names_mean_one_column,
    states_stay_fitting, tags_stay_well_formed,
};
pub use std::alloc::AllocError as OutOfMemory;
