// A connection over TCP, as a port.
ghost use Rattle.std.specs.Prelude.{◌≡◌};

use crate::stream;
use ifdb_io::Failed;
use ifdb_loop::Port;
use mio::net::TcpStream;

/// A connection over TCP. It tells no content, and counts how often reading and writing have failed, each up to 2^64 - 1.
#[derive(Drop)]
pub struct TcpPort {
    stream: TcpStream,
    unread: u64,
    unwritten: u64,
}

impl TcpPort {
    // A connection that hasn't failed yet.
    pub(crate) fn new(stream: TcpStream) -> TcpPort
        ensures reads { result.unread ≡ 0 }
        ensures writes { result.unwritten ≡ 0 }
    {
        TcpPort {
            stream,
            unread: 0,
            unwritten: 0,
        }
    }

    // Its stream, if neither reading nor writing has failed.
    pub(crate) fn sound_stream(self) -> Option<TcpStream> {
        if self.unread > 0 || self.unwritten > 0 {
            return None;
        }
        Some(self.stream)
    }
}

impl Port for TcpPort {
    ghost use Rattle.std.specs.Prelude.{None};

    ghost given = { λ _. None };

    ghost left = { λ _. None };

    ghost written = { λ _. None };

    ghost unread = { λ port. port.unread };

    ghost unwritten = { λ port. port.unwritten };

    fn read(&mut self, buf: &mut [u8]) -> Result<Option<usize>, Failed> {
        match stream::read(&mut self.stream, buf) {
            Ok(found) => Ok(found),
            Err(Failed) => {
                self.unread = self.unread.saturating_add(1);
                Err(Failed)
            }
        }
    }

    fn write(&mut self, piece: &[u8]) -> Result<Option<usize>, Failed> {
        match stream::write(&mut self.stream, piece) {
            Ok(found) => Ok(found),
            Err(Failed) => {
                self.unwritten = self.unwritten.saturating_add(1);
                Err(Failed)
            }
        }
    }

    fn expire_read(&mut self) {
        self.unread = self.unread.saturating_add(1);
    }

    fn expire_write(&mut self) {
        self.unwritten = self.unwritten.saturating_add(1);
    }
}
