// Reading into the front of a buffer, and looking for a newline in it.
ghost use Rattle.std.specs.Prelude.{◌≡◌, ◌≢◌, ◌<◌, ◌≤◌, ◌+◌, ◌++◌, length, take, IfOk, OnErr, All, MatchOption, vec_len, vec_capacity};
ghost use Rattle.std.specs.Io.KnownBytes.{Consumes, IsAtEnd, Keeps};
ghost use Rattle.ifdb_io.specs.Causes.{HasCause};
ghost use Rattle.ifdb_io.specs.Reader.{BreaksAt};

use crate::{Failed, Source};
use memchr::memchr;

// Reads into the first `room` bytes of a buffer.
fn fill<R: Source>(source: &mut R, buffer: &mut [u8], room: usize) -> Result<usize, Failed>
    requires fits { room ≤ length buffer.old }
    requires some { 0 < room }
    ensures bound { IfOk result (λ n. n ≤ room) }
    ensures bytes { IfOk result
        (λ n. Consumes (R.left source.old) (R.left source.new) (take n buffer.new)) }
    ensures end { result ≡ Ok 0 → IsAtEnd (R.left source.new) }
    ensures kept { OnErr result (Keeps (R.left source.old) (R.left source.new)) }
    ensures cause { HasCause (R.faults source.old) (R.faults source.new) result }
    ensures beside { R.beside source.new ≡ R.beside source.old }
{
    source.read(&mut buffer[..room])
}

// The same into a chunk, whose length stays.
pub fn refill<R: Source>(source: &mut R, chunk: &mut Vec<u8>, room: usize) -> Result<usize, Failed>
    requires fits { room ≤ vec_len chunk.old }
    requires some { 0 < room }
    ensures bound { IfOk result (λ n. n ≤ room) }
    ensures length { vec_len chunk.new ≡ vec_len chunk.old }
    ensures bytes { IfOk result
        (λ n. Consumes (R.left source.old) (R.left source.new) (take n chunk.new.items)) }
    ensures end { result ≡ Ok 0 → IsAtEnd (R.left source.new) }
    ensures kept { OnErr result (Keeps (R.left source.old) (R.left source.new)) }
    ensures cause { HasCause (R.faults source.old) (R.faults source.new) result }
    ensures beside { R.beside source.new ≡ R.beside source.old }
{
    fill(source, chunk, room)
}

// The place of the first newline.
pub fn newline_in(piece: &[u8]) -> Option<usize>
    ensures { MatchOption result (All (λ b. b ≢ 10) piece.now) (λ n. BreaksAt piece.now n) }
{
    memchr(b'\n', piece)
}

// Adds bytes for which there is room.
pub fn add(text: &mut Vec<u8>, bytes: &[u8])
    requires { vec_len text.old + length bytes.now ≤ vec_capacity text.old }
    ensures items { text.new.items ≡ text.old.items ++ bytes.now }
    ensures len { vec_len text.new ≡ vec_len text.old + length bytes.now }
    ensures room { vec_capacity text.old ≤ vec_capacity text.new }
{
    let _ = text.extend_from_slice(bytes);
}
