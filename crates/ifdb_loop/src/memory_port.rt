// A port in memory.
ghost use Rattle.std.specs.Prelude.{◌≡◌, ◌<◌, ◌≤◌, ◌+◌, ◌++◌, [], ℕ, List, length, take, drop, Some, IfSome, Option};
ghost use Rattle.std.specs.Io.KnownBytes.{append_known, prepend_known, IsAtEnd};
ghost use Rattle.ifdb_io.specs.Causes.{HasCause, Rose};
ghost use Rattle.ifdb_loop.specs.Moves.{moved};

use crate::Port;
use crate::chunk::copy_in;
use ifdb_io::Failed;
use std::marker::Model;

/// How a call of a port in memory ends.
#[derive(Clone, Copy)]
pub enum Step {
    /// At most so many bytes are moved; 0 is a wait.
    Piece(usize),
    /// It would have to wait.
    Wait,
    /// It fails.
    Fail,
}

/// A port in memory. Its reads and its writes go by their own lists of steps; once these are over, each call moves all that it
/// can.
#[derive(Drop)]
pub struct MemoryPort {
    bytes: Vec<u8>,
    given: usize,
    written: Vec<u8>,
    reads: Vec<Step>,
    writes: Vec<Step>,
    read_calls: usize,
    write_calls: usize,
    unread: u64,
    unwritten: u64,
}

impl Model for MemoryPort {
    ghost use Rattle.std.specs.Prelude.{◌≤◌, take, drop, vec_len};
    ghost use Rattle.ifdb_loop.specs.Traffic.{Ported};

    ghost Value = { Ported };

    ghost view = { λ p. record {
      given = take p.given p.bytes.items;
      left = drop p.given p.bytes.items;
      written = p.written.items;
      unread = p.unread;
      unwritten = p.unwritten;
    } };

    ghost invariant = { λ p. p.given ≤ vec_len p.bytes };
}

impl MemoryPort {
    /// A port that gives these bytes, where the first calls go by these steps.
    pub fn new(bytes: Vec<u8>, written: Vec<u8>, reads: Vec<Step>, writes: Vec<Step>) -> MemoryPort
        ensures given { result.given ≡ [] }
        ensures left { result.left ≡ bytes.items }
        ensures written { result.written ≡ written.items }
        ensures reads { result.unread ≡ 0 }
        ensures writes { result.unwritten ≡ 0 }
    {
        MemoryPort {
            bytes,
            given: 0,
            written,
            reads,
            writes,
            read_calls: 0,
            write_calls: 0,
            unread: 0,
            unwritten: 0,
        }
    }

    /// The bytes that were written.
    pub fn written(&self) -> &[u8]
        ensures { result.now ≡ self.now.written }
    {
        &self.written
    }
}

// The step of this number.
fn step_at(steps: &[Step], call: usize) -> Step {
    match steps.get(call) {
        Some(step) => *step,
        None => Step::Piece(usize::MAX),
    }
}

impl Port for MemoryPort {
    ghost use Rattle.std.specs.Prelude.{Some};

    ghost given = { λ port. Some port.given };

    ghost left = { λ port. Some port.left };

    ghost written = { λ port. Some port.written };

    ghost unread = { λ port. port.unread };

    ghost unwritten = { λ port. port.unwritten };

    fn read(&mut self, buf: &mut [u8]) -> Result<Option<usize>, Failed> {
        let step = step_at(&self.reads, self.read_calls);
        self.read_calls = self.read_calls.saturating_add(1);
        let most = match step {
            Step::Fail => {
                self.unread = self.unread.saturating_add(1);
                return Err(Failed);
            }
            Step::Wait => return Ok(None),
            Step::Piece(most) => most,
        };
        if most == 0 {
            return Ok(None);
        }
        let count = (self.bytes.len() - self.given).min(most).min(buf.len());
        copy_in(buf, &self.bytes[self.given..self.given + count]);
        self.given += count;
        Ok(Some(count))
    }

    fn write(&mut self, piece: &[u8]) -> Result<Option<usize>, Failed> {
        let step = step_at(&self.writes, self.write_calls);
        self.write_calls = self.write_calls.saturating_add(1);
        let most = match step {
            Step::Fail => {
                self.unwritten = self.unwritten.saturating_add(1);
                return Err(Failed);
            }
            Step::Wait => return Ok(None),
            Step::Piece(most) => most,
        };
        if most == 0 {
            return Ok(None);
        }
        let count = piece.len().min(most);
        if self.written.extend_from_slice(&piece[..count]).is_err() {
            self.unwritten = self.unwritten.saturating_add(1);
            return Err(Failed);
        }
        Ok(Some(count))
    }

    fn expire_read(&mut self) {
        self.unread = self.unread.saturating_add(1);
    }

    fn expire_write(&mut self) {
        self.unwritten = self.unwritten.saturating_add(1);
    }
}
