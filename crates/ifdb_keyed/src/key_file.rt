// The key of admin in a file.
ghost use Rattle.std.specs.Prelude.{◌≡◌, ◌≢◌, ℕ, All, List, length, nat_le, take, IfOk, MatchOption};
ghost use Rattle.std.specs.Str.Lossy.{utf8_valid_len};
ghost use Rattle.std.specs.Io.{ReadsAtMost};
ghost use Rattle.ifdb_io.specs.Causes.{HasCause};
ghost use Rattle.ifdb_io.specs.Reader.{BreaksAt};
ghost use Rattle.ifdb_disk.specs.Clock.{Now};
ghost use Rattle.ifdb_keyed.specs.Files.{IsKeyIn, first_line};

use crate::{AdminKey, LONGEST_KEY};
use ifdb_disk::Disk;
use ifdb_io::Failed;
use ifdb_parse::without_return;
use memchr::memchr;
use std::str;

// As many bytes of a file tell its key: the longest, a carriage return, and a newline or one byte too many.
const FRONT: usize = LONGEST_KEY + 2;

/// The key that a file holds: its first line, without a carriage return at its end. `None` where that is no text in UTF-8 of 1 to
/// `LONGEST_KEY` bytes. `Failed` where the disk failed. Takes no memory, and reads 66 bytes.
pub fn read_key<D: Disk>(disk: &mut D) -> Result<Option<AdminKey>, Failed>
    ensures key { IfOk result (λ key. Now (D.tells disk.old) (λ s. IsKeyIn s.bytes key)) }
    ensures still { D.tells disk.new ≡ D.tells disk.old }
    ensures cause { HasCause (D.faults disk.old) (D.faults disk.new) result }
{
    let mut front = [0; FRONT];
    let count = read_front(disk, &mut front)?;
    Ok(key_in(&front[..count]))
}

// Reads the first bytes of a disk, as many as there are and as there is room for.
fn read_front<D: Disk>(disk: &mut D, buf: &mut [u8]) -> Result<usize, Failed>
    ensures bound { ReadsAtMost result buf.new }
    ensures bytes { IfOk result
        (λ n. Now (D.tells disk.old) (λ s. take n buf.new ≡ take (length buf.new) s.bytes)) }
    ensures still { D.tells disk.new ≡ D.tells disk.old }
    ensures cause { HasCause (D.faults disk.old) (D.faults disk.new) result }
{
    let mut count = 0;
    while count < buf.len() {
        let more = disk.read(count as u64, &mut buf[count..])?;
        if more == 0 {
            return Ok(count);
        }
        count += more;
    }
    Ok(count)
}

// The key in a file of which these are the first bytes, or all.
fn key_in(front: &[u8]) -> Option<AdminKey>
    ensures { (bytes : List ℕ) → front.now ≡ take 66 bytes → IsKeyIn bytes result }
{
    let line = without_return(first_line(front));
    if !is_text(line) {
        return None;
    }
    AdminKey::new(line)
}

// Whether these bytes are UTF-8.
#[tactic(auto, using(ifdb_lex::proofs::LineLemmas::valid_text))]
fn is_text(bytes: &[u8]) -> bool
    ensures { result ≡ nat_le (length bytes.now) (utf8_valid_len bytes.now) }
{
    match str::from_utf8(bytes) {
        Ok(_) => true,
        Err(fault) => bytes.len() <= fault.valid_up_to(),
    }
}

// The bytes before the first newline, or all.
#[tactic(auto, using(crate::proofs::KeyFiles::line_found, crate::proofs::KeyFiles::no_newline))]
fn first_line(bytes: &[u8]) -> &[u8]
    ensures { result.now ≡ first_line bytes.now }
{
    match newline_in(bytes) {
        Some(place) => &bytes[..place],
        None => bytes,
    }
}

// The place of the first newline.
fn newline_in(bytes: &[u8]) -> Option<usize>
    ensures { MatchOption result (All (λ b. b ≢ 10) bytes.now) (λ n. BreaksAt bytes.now n) }
{
    memchr(b'\n', bytes)
}
