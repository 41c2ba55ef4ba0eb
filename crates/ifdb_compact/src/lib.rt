//! Laws of compacted logs: all public changes in their order, and then all rows.
#![tactic(auto)]

mod laws;

pub use laws::{compacted_logs_answer_alike, compacted_texts_restore};
