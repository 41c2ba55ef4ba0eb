// A door that shares a listener with others.
ghost use Rattle.std.specs.Prelude.{◌≡◌, false};

use crate::TcpLink;
use ifdb_io::{Door, Failed};
use std::alloc::Global;
use std::io::ErrorKind;
use std::net::TcpListener;
use std::sync::Arc;

/// A door over TCP. It takes the connections of a listener, which other doors share, and is at its
/// end once it gave the most that it may give. It tells no link.
///
/// `next` waits until a client connects. It fails, and the count of the door's faults rises, where
/// the system gives no connection: it lacks files or memory, or the listener has failed. A
/// connection that its client gave up before it was taken is dropped, and `next` waits for another;
/// it fails after 65,536 of these in a row.
///
/// `done` ends the connection so that the client gets the last reply and the end, and no reset. For
/// that it drops what the client still sends: at most 32 reads of at most 64 KiB, each of which the
/// system ends after 200 ms.
#[derive(Drop)]
pub struct TcpDoor {
    listener: Arc<TcpListener, Global>,
    pub(crate) most: u64,
    pub(crate) out: u64,
    ended: bool,
    failed: u64,
}

// How many connections that were given up are dropped in a row.
const TRIES: u32 = 65536;

impl TcpDoor {
    // A door that may give so many connections.
    pub(crate) fn new(listener: Arc<TcpListener, Global>, most: u64) -> TcpDoor
        ensures most { result.most ≡ most }
        ensures none_out { result.out ≡ 0 }
        ensures open { result.ended ≡ false }
        ensures no_fault { result.failed ≡ 0 }
    {
        TcpDoor {
            listener,
            most,
            out: 0,
            ended: false,
            failed: 0,
        }
    }

    /// The port that the door stands at, or none where the system doesn't tell it.
    pub fn port(&self) -> Option<u16> {
        match self.listener.local_addr() {
            Ok(address) => Some(address.port()),
            Err(_) => None,
        }
    }
}

// Takes a connection of the listener, or none where there is no use in waiting for one.
fn accept(listener: &TcpListener) -> Option<TcpLink> {
    for _ in 0..TRIES {
        match listener.accept() {
            Ok((stream, _)) => {
                if let Ok(link) = TcpLink::new(stream) {
                    return Some(link);
                }
            }
            Err(e) => match e.kind() {
                ErrorKind::ConnectionAborted | ErrorKind::ConnectionReset => {}
                _ => return None,
            },
        }
    }
    None
}

impl Door for TcpDoor {
    ghost use Rattle.std.specs.Prelude.{None};

    type Link = TcpLink;

    ghost most = { λ door. door.most };

    ghost out = { λ door. door.out };

    ghost ended = { λ door. door.ended };

    ghost faults = { λ door. door.failed };

    ghost coming = { λ _. None };

    ghost back = { λ _. None };

    fn next(&mut self) -> Result<Option<TcpLink>, Failed> {
        if self.ended || self.most == 0 || self.out == u64::MAX {
            self.ended = true;
            return Ok(None);
        }
        match accept(&self.listener) {
            Some(link) => {
                self.most -= 1;
                self.out += 1;
                Ok(Some(link))
            }
            None => {
                self.failed = self.failed.saturating_add(1);
                Err(Failed)
            }
        }
    }

    fn done(&mut self, link: TcpLink) {
        link.end();
        self.out -= 1;
    }
}
