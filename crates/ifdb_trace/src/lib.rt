//! Recorded runs: whether a trace is exactly what the server's definitions say, and what a script comes to below a level.
#![tactic(auto)]

mod check;
mod checker;
mod first_line;
mod laws;
mod level;
mod projection;
mod reply;

pub use check::{TraceEnd, check_trace};
pub use laws::{checks_are_exact, projections_are_heard};
pub use projection::{ProjectEnd, project};
