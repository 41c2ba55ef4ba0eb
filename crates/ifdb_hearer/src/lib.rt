//! A service whose lines are heard by a key for admin of the server's own.
#![tactic(auto)]

mod hearer;

pub use hearer::Hearer;
