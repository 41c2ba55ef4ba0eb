//! Ports of the system's TCP sockets, gates that wait until some are ready, and a site whose gates stand at a port.
#![tactic(auto)]

mod hand;
mod lingering;
mod porter;
mod stream;
mod tcp_gate;
mod tcp_gates;
mod tcp_port;

pub(crate) use hand::Hand;
pub use tcp_gate::TcpGate;
pub use tcp_gates::TcpGates;
pub use tcp_port::TcpPort;
