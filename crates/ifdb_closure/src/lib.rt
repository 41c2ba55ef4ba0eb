//! Stored closures: statements that run with their owner's authority, at their caller's label. What a script with them is told, and
//! its run.
#![tactic(auto)]

mod call;
mod closure;
mod form;
mod greeting;
mod laws;
mod lines;
mod script;
mod stage;
mod statements;

pub use laws::{
    call_bounds, forms_are_read, idle_sessions, lines_are_read_back, memory_is_refused_alone,
    memory_serves, script_calls_are_bound, two_worlds,
};
pub use script::{ClosureEnd, closure_script};
