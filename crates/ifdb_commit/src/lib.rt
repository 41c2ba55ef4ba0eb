//! How a COMMIT is judged: the first case that applies to a transaction's writes, and what shows it.
//!
//! First committer wins (H. Berenson and others, SIGMOD 1995), among slots of one key whose labels flow to the writer's. The commit
//! label rule is that of IFDB (D. Schultz and B. Liskov, EuroSys 2013).
#![tactic(auto)]

mod judge;
mod later;
mod laws;

pub use judge::{Judged, verdict};
pub use later::{LaterWrite, newer};
pub use laws::judged_over_a_log;
