// A connection over TCP, as a link.
use crate::stream;
use ifdb_io::{Failed, Link, Sink, Source};
use std::io;
use std::net::TcpStream;

/// A connection over TCP. It tells no content, and counts how often reading and writing have
/// failed, each up to 2^64 - 1.
///
/// Reading fails where the client has reset the connection, or sent nothing for
/// [`IDLE_READ_SECONDS`](crate::IDLE_READ_SECONDS); writing where the client is gone, or took
/// nothing for [`IDLE_WRITE_SECONDS`](crate::IDLE_WRITE_SECONDS).
#[derive(Drop)]
pub struct TcpLink {
    pub(crate) stream: TcpStream,
    unread: u64,
    unwritten: u64,
}

impl TcpLink {
    // A connection that hasn't failed yet. Fails where the system doesn't take its settings.
    pub(crate) fn new(stream: TcpStream) -> io::Result<TcpLink> {
        stream::set_up(&stream)?;
        Ok(TcpLink {
            stream,
            unread: 0,
            unwritten: 0,
        })
    }

    // Ends the connection so that the client gets the last reply.
    pub(crate) fn end(self) {
        stream::end(self.stream);
    }
}

impl Source for TcpLink {
    ghost use Rattle.std.specs.Prelude.{None};

    ghost left = { λ _. None };

    ghost faults = { λ link. link.unread };

    ghost beside = { λ link. (None, link.unwritten, 0) };

    fn read(&mut self, buf: &mut [u8]) -> Result<usize, Failed> {
        match stream::read(&mut self.stream, buf) {
            Ok(count) => Ok(count),
            Err(_) => {
                self.unread = self.unread.saturating_add(1);
                Err(Failed)
            }
        }
    }
}

impl Sink for TcpLink {
    ghost use Rattle.std.specs.Prelude.{None};

    ghost written = { λ _. None };

    ghost faults = { λ link. link.unwritten };

    ghost beside = { λ link. (None, link.unread, 0) };

    fn write(&mut self, piece: &[u8]) -> Result<usize, Failed> {
        if piece.is_empty() {
            return Ok(0);
        }
        match stream::write(&mut self.stream, piece) {
            Ok(count) if count > 0 => Ok(count),
            _ => {
                self.unwritten = self.unwritten.saturating_add(1);
                Err(Failed)
            }
        }
    }
}

impl Link for TcpLink {
    ghost use Rattle.std.specs.Prelude.{refl};

    ghost reading = { λ _. refl };

    ghost writing = { λ _. refl };
}
