// Connections at their end. One that is closed while its client still sends is reset, and the client may lose the last reply. So
// the writing side is shut first, and what comes is read and dropped, until the client closes too or has had time enough.
use crate::stream;
use mio::net::TcpStream;
use mio::{Interest, Registry, Token};
use slab::Slab;
use std::alloc::Global;
use std::net::Shutdown;

// Tokens from here on are of connections at their end.
pub(crate) const FIRST: usize = 1 << 32;

// How long the end of a connection takes at most, in seconds, how many pieces are dropped in it, and how many bytes a piece has.
const LAST_SECONDS: u64 = 6;

const LAST_PIECES: u32 = 128;

const LAST_PIECE: usize = 16_384;

// A connection whose writing side is shut, how many pieces of it may be dropped still, and when its time is up.
#[derive(Drop)]
struct Leaving {
    stream: TcpStream,
    pieces: u32,
    until: u64,
}

impl Leaving {
    // Drops what has come, and says whether more is to be waited for.
    fn drain(&mut self) -> bool {
        let mut piece = [0; LAST_PIECE];
        for _ in 0..self.pieces {
            self.pieces = self.pieces.saturating_sub(1);
            match stream::read(&mut self.stream, &mut piece) {
                Ok(None) => return true,
                Ok(Some(count)) if count > 0 => {}
                _ => return false,
            }
        }
        false
    }
}

// The connections of a gate that are at their end.
#[derive(Drop)]
pub(crate) struct Lingering {
    leaving: Slab<Leaving>,
    swept: u64,
}

impl Lingering {
    // None.
    pub(crate) fn new(alloc: Global) -> Lingering {
        Lingering {
            leaving: Slab::new(alloc),
            swept: 0,
        }
    }

    // Ends a connection. Without memory for that, or where it has ended already, it is closed at once.
    pub(crate) fn add(&mut self, registry: &Registry, mut stream: TcpStream, now: u64) {
        if stream.shutdown(Shutdown::Write).is_err() {
            return;
        }
        let token = Token(FIRST.saturating_add(self.leaving.vacant_key()));
        if registry
            .reregister(&mut stream, token, Interest::READABLE)
            .is_err()
        {
            return;
        }
        if self.leaving.reserve(1).is_err() {
            return;
        }
        self.leaving.insert_reserved(Leaving {
            stream,
            pieces: LAST_PIECES,
            until: now.saturating_add(LAST_SECONDS),
        });
    }

    // Drops what has come of the connection at a key.
    pub(crate) fn drain(&mut self, key: usize) {
        if let Some(mut leaving) = self.leaving.try_remove(key) {
            if leaving.drain() {
                self.leaving.insert_reserved(leaving);
            }
        }
    }

    // Closes those whose time is up, once a second.
    pub(crate) fn sweep(&mut self, now: u64) {
        if now == self.swept {
            return;
        }
        self.swept = now;
        self.leaving.retain(|_, leaving| leaving.until > now);
    }
}
