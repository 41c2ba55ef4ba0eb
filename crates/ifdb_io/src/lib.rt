//! The outside of the server: sources of bytes, sinks for bytes, connections and the doors that they
//! come through, and the lines of a source. Each failure of the outside is counted by the thing
//! that failed.
#![tactic(auto)]

mod doors;
mod duplex;
mod lines;
mod memory_door;
mod memory_site;
mod outside;
mod reads;
mod sinks;
mod sources;
mod writes;

pub use doors::{Asked, Door, Site, SiteFault};
pub use duplex::{Duplex, MemoryLink, SureLink};
pub use lines::{LONGEST_LINE, Line, LineFault, LineReader, lines_are_bounded};
pub use memory_door::MemoryDoor;
pub use memory_site::MemorySite;
pub use outside::{Failed, Link, Sink, Source};
pub use sinks::{MemorySink, SureSink};
pub use sources::{MemorySource, SureSource};
pub use std::alloc::AllocError as OutOfMemory;
pub use writes::write_all;
