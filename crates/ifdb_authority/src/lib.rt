//! Authority: who holds which tag, by making it, by a chain of grants, or by holding a compound that the tag is in.
//!
//! The behaviour is that of IFDB (D. Schultz and B. Liskov, EuroSys 2013): authority for a tag is delegated, and a grant
//! counts only while its grantor holds the tag.
#![tactic(auto)]

mod authority;
mod grant;
mod grantors;
mod holding;
mod laws;
mod search;

pub use authority::Authority;
pub use grant::{Grant, GrantFault, NotGranted};
pub use ifdb_label::OutOfMemory;
pub use laws::{
    changes_touch_one_grant, compounds_give_members, grants_stand_once, more_grants_hold_more,
    steps_suffice,
};
