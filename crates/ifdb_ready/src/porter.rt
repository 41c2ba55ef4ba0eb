// The porter, who takes the connections of a port and hands them to loops.
use crate::Hand;
use mio::net::{TcpListener, TcpStream};
use mio::{Interest, Registry, Token};
use std::io;
use std::io::ErrorKind;
use std::net::{Ipv4Addr, Net, SocketAddr};
use std::sync::{Arc, Wait};
use std::time::Duration;

// How many connections are taken at a time.
const MANY: u32 = 1024;

// After how long the porter asks again, where the system has no descriptor, in milliseconds.
const PAUSE: u64 = 20;

// Takes the connections of a port of this machine, and puts each into the hand of the loop that has the fewest.
#[derive(Drop)]
pub(crate) struct Porter {
    listener: TcpListener,
    hands: Vec<Arc<Hand>>,
    // After how long more may have come, of which no event tells, if that may be.
    again: Option<Duration>,
}

impl Porter {
    // Listens at 127.0.0.1, with the longest queue that the system allows. At port 0 the system picks one that is free. The
    // registry tells by this token that connections have come.
    //
    // The errors are those of the system, where the port is taken or may not be listened at.
    pub(crate) fn new<R: Net>(
        rt: &R,
        registry: &Registry,
        token: Token,
        port: u16,
        hands: Vec<Arc<Hand>>,
    ) -> io::Result<Porter> {
        let at = SocketAddr::from((Ipv4Addr::LOCALHOST, port));
        let mut listener = TcpListener::bind(rt, at)?;
        registry.register(&mut listener, token, Interest::READABLE)?;
        Ok(Porter {
            listener,
            hands,
            again: None,
        })
    }

    // Notes that connections have come.
    pub(crate) fn call(&mut self) {
        self.again = Some(Duration::ZERO);
    }

    // After how long the porter is to work again, though no event tells.
    pub(crate) fn again(&self) -> Option<Duration> {
        self.again
    }

    // Hands out the connections that have come, if some may have.
    pub(crate) fn work<R: Wait>(&mut self, rt: &R) {
        if self.again.is_some() {
            self.again = self.take(rt);
        }
    }

    // Hands out connections, and says after how long there may be more. Where the system has no descriptor for one it stays in the
    // queue, and no event tells of it again.
    fn take<R: Wait>(&mut self, rt: &R) -> Option<Duration> {
        for _ in 0..MANY {
            match self.listener.accept() {
                Ok((stream, _)) => self.hand_out(rt, stream),
                Err(e) => match e.kind() {
                    ErrorKind::WouldBlock => return None,
                    ErrorKind::ConnectionAborted | ErrorKind::ConnectionReset => {}
                    ErrorKind::Interrupted => {}
                    _ => return Some(Duration::from_millis(PAUSE)),
                },
            }
        }
        Some(Duration::ZERO)
    }

    // Puts a connection into the hand of the loop that has the fewest.
    fn hand_out<R: Wait>(&self, rt: &R, stream: TcpStream) {
        if stream.set_nodelay(true).is_err() {
            return;
        }
        if let Some(hand) = self.hands.iter().min_by_key(|hand| hand.load()) {
            hand.give(rt, stream);
        }
    }
}
