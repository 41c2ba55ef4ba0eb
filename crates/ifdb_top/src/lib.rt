//! All that the program does, over any source, sink, site, folder and shelf: `top_host` does what the words of the command line say.
#![tactic(auto)]

mod all;
mod base;
mod check;
mod closures;
mod compacting;
mod hosting;
mod inspecting;
mod keep;
mod more;
mod project;
mod status;

pub use all::top_host;
pub use base::{Status, top};
pub use more::{MoreStatus, top_more};
pub use status::HostStatus;
