//! Scripts: the lines of an input, the step of each, and the bytes that are written for it.
#![tactic(auto)]

mod first_line;
mod laws;
mod rehearsal;
mod rehearsed;
mod script;

pub use laws::memory_is_refused_alone;
pub use rehearsal::rehearse;
pub use rehearsed::Rehearsed;
pub use script::{ScriptEnd, run_script};
