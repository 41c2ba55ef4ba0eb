// What is done to a stream of the system: its settings, and reading and writing over signals.
ghost use Rattle.std.specs.Io.{ReadsAtMost, WritesAtMost};

use std::io;
use std::io::{ErrorKind, Read, Write};
use std::net::{Shutdown, TcpStream};
use std::time::Duration;

/// How long a link waits for its client to send something, in seconds. Then its read fails.
pub const IDLE_READ_SECONDS: u64 = 600;

/// How long a link waits for its client to take something of a reply, in seconds. Then its write
/// fails.
pub const IDLE_WRITE_SECONDS: u64 = 60;

// How often a call that a signal interrupts is made. A process that was stopped and goes on is
// interrupted once.
const TRIES: u32 = 1000;

// At the end of a connection: how many times it is read from, how long each of these waits at most,
// in milliseconds, and how many bytes it takes at most. So in all the end drops at most 2 MiB, and
// waits for at most 6.4 seconds.
const LAST_READS: u32 = 32;

const LAST_WAIT: u64 = 200;

const LAST_PIECE: usize = 65536;

// Each reply goes out at once, and no client holds its worker for good by silence.
pub(crate) fn set_up(stream: &TcpStream) -> io::Result<()> {
    stream.set_nodelay(true)?;
    stream.set_read_timeout(Some(Duration::from_secs(IDLE_READ_SECONDS)))?;
    stream.set_write_timeout(Some(Duration::from_secs(IDLE_WRITE_SECONDS)))
}

// Reads once, and again where a signal came.
pub(crate) fn read(stream: &mut TcpStream, buf: &mut [u8]) -> io::Result<usize>
    ensures { ReadsAtMost result buf.new }
{
    for _ in 0..TRIES {
        match stream.read(buf) {
            Err(e) if e.kind() == ErrorKind::Interrupted => {}
            done => return done,
        }
    }
    Err(io::Error::from(ErrorKind::Interrupted))
}

// Writes once, and again where a signal came.
pub(crate) fn write(stream: &mut TcpStream, piece: &[u8]) -> io::Result<usize>
    ensures { WritesAtMost result piece.now }
{
    for _ in 0..TRIES {
        match stream.write(piece) {
            Err(e) if e.kind() == ErrorKind::Interrupted => {}
            done => return done,
        }
    }
    Err(io::Error::from(ErrorKind::Interrupted))
}

// Ends the connection so that the client gets what was written: says that no more comes, and then
// reads and drops what the client still sends, for a while. A close with unread bytes would reset
// the connection, and the client might lose the last reply.
pub(crate) fn end(mut stream: TcpStream) {
    if stream.shutdown(Shutdown::Write).is_err() {
        return;
    }
    if stream
        .set_read_timeout(Some(Duration::from_millis(LAST_WAIT)))
        .is_err()
    {
        return;
    }
    let mut rest = [0; LAST_PIECE];
    for _ in 0..LAST_READS {
        match stream.read(&mut rest) {
            Ok(0) | Err(_) => return,
            Ok(_) => {}
        }
    }
}
