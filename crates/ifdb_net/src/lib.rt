//! Connections of the system's TCP sockets, as links, doors and a site.
#![tactic(auto)]

mod door;
mod link;
mod site;
mod stream;
#[cfg(test)]
mod tests;

pub use door::TcpDoor;
pub use link::TcpLink;
pub use site::TcpSite;
pub use stream::{IDLE_READ_SECONDS, IDLE_WRITE_SECONDS};
