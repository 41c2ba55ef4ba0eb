//! The service of a site: a worker for each door, over one room that all connections share, and the summary at the end.
#![tactic(auto)]

mod crossing;
mod doors;
mod end;
mod laws;
mod numbered_line;
mod service;
mod summary;
mod workers;

pub use crossing::room_crosses;
pub use doors::{Ended, Unserved, serve_doors};
pub use end::ServiceEnd;
pub use laws::laws_hold;
pub use numbered_line::write_numbered;
pub use service::serve;
pub use summary::write_summary;
