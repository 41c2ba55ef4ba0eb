//! What is told is framed: no line of a reply holds a newline, whatever is asked, so nobody's text or name forges a line of the
//! protocol, and the bytes of a run say which replies it gave.
//!
//! Each function has no parameter and does nothing. Its contract is a law, proved of the definitions alone; the words of
//! the laws stand in `specs/`.
#![tactic(auto)]

mod laws;

pub use laws::{outputs_read_back, replies_are_framed};
