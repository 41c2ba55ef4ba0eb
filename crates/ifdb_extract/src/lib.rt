//! What a log comes to: its public changes, as they were recorded, and its rows. It's read from one disk, and written to another.
#![tactic(auto)]

mod extract;
mod fault;
mod gathering;
mod row_texts;
mod worth;
mod writer;

pub use extract::Extract;
pub use fault::WriteFault;
pub use gathering::extract_log;
pub use worth::is_worth;
