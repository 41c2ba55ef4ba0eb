//! What a session is answered: replies, refusals and their texts; and what a line of a script asks for.
#![tactic(auto)]

mod buffer;
mod fault;
mod reply;
mod rows;
mod script;

pub use buffer::Out;
pub use fault::Fault;
pub use reply::{Reply, Table};
pub use script::{StepLine, step_line};
