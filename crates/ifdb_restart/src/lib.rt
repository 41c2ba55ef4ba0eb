//! A restart: the redo records of a log, made again in a room.
#![tactic(auto)]

mod going_on;
mod laws;
mod redo;

pub use going_on::{Restarted, restart};
pub use laws::{first_texts_add_a_front, first_texts_restore_a_front};
pub use redo::{Made, redo_text};
pub use std::alloc::AllocError as OutOfMemory;
