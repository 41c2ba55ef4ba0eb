// The bytes that a loop has in hand of the connection whose turn it is.
ghost use Rattle.std.specs.Prelude.{◌≡◌, ◌≢◌, ◌<◌, ◌≤◌, ◌+◌, ◌++◌, [], length, take, drop, vec_len, Some, Ok, IfOk, All, MatchOption};
ghost use Rattle.std.specs.Io.KnownBytes.{append_known, prepend_known, IsAtEnd};
ghost use Rattle.ifdb_io.specs.Causes.{HasCause};
ghost use Rattle.ifdb_io.specs.Reader.{BreaksAt};
ghost use Rattle.ifdb_loop.specs.Fronts.{BeginsAs};
ghost use Rattle.ifdb_loop.specs.Moves.{moved};

use crate::Port;
use ifdb_io::{Failed, LONGEST_LINE, OutOfMemory};
use memchr::memchr;
use std::alloc::Global;
use std::marker::Model;

/// How many bytes a chunk holds at most.
pub const SIZE: usize = 131_072;

/// How some bytes begin.
#[derive(Clone, Copy)]
pub enum Front {
    /// With a line, whose newline stands at this place.
    Line(usize),
    /// With more than a line may have.
    TooLong,
    /// They are a part of a line.
    Part,
}

/// The bytes that came of a connection and aren't asked yet: one for all connections of a loop.
///
/// Contracts see the bytes.
#[derive(Drop)]
pub struct Chunk {
    bytes: Vec<u8>,
    from: usize,
    to: usize,
}

impl Model for Chunk {
    ghost use Rattle.std.specs.Prelude.{◌≡◌, ◌≤◌, ℕ, List, slice_range, vec_len};
    ghost use Rattle.ifdb_loop.specs.declared.chunk.TheConstants.{SIZE};

    ghost Value = { List ℕ };

    ghost view = { λ c. slice_range c.bytes.items c.from c.to };

    ghost invariant = { λ c. (c.from ≤ c.to) × (c.to ≤ SIZE) × (vec_len c.bytes ≡ SIZE) };
}

impl Chunk {
    /// No bytes. Takes 128 KiB.
    ///
    /// # Errors
    /// `OutOfMemory` where there is no memory for that.
    pub fn new(alloc: Global) -> Result<Chunk, OutOfMemory>
        ensures { IfOk result (λ chunk. chunk ≡ []) }
    {
        Ok(Chunk {
            bytes: vec![in alloc; 0; SIZE]?,
            from: 0,
            to: 0,
        })
    }

    /// The bytes.
    pub fn bytes(&self) -> &[u8]
        ensures value { result.now ≡ self.now }
        ensures size { length self.now ≤ SIZE }
    {
        &self.bytes[self.from..self.to]
    }

    /// Holds these bytes and no others.
    pub fn load(&mut self, held: &[u8])
        requires { length held.now ≤ SIZE }
        ensures { self.new ≡ held.now }
    {
        copy_front(&mut self.bytes, held);
        self.from = 0;
        self.to = held.len();
    }

    /// Reads once, at most so many bytes, behind those that are held.
    ///
    /// # Errors
    /// `Failed` where the port failed, which then gave nothing.
    pub fn fill<P: Port>(&mut self, port: &mut P, most: usize) -> Result<Option<usize>, Failed>
        requires some { 0 < most }
        requires room { length self.old + most ≤ SIZE }
        ensures bytes { self.new ≡ self.old ++ drop (length self.old) self.new }
        ensures count { length self.new ≡ length self.old + moved result }
        ensures most { moved result ≤ most }
        ensures given { P.given port.new
            ≡ append_known (P.given port.old) (drop (length self.old) self.new) }
        ensures left { P.left port.old
            ≡ prepend_known (drop (length self.old) self.new) (P.left port.new) }
        ensures end { result ≡ Ok (Some 0) → IsAtEnd (P.left port.new) }
        ensures cause { HasCause (P.unread port.old) (P.unread port.new) result }
        ensures written { P.written port.new ≡ P.written port.old }
        ensures unwritten { P.unwritten port.new ≡ P.unwritten port.old }
    {
        self.bytes.copy_within(self.from..self.to, 0);
        self.to -= self.from;
        self.from = 0;
        let found = read_behind(port, &mut self.bytes, self.to, most)?;
        if let Some(count) = found {
            self.to += count;
        }
        Ok(found)
    }

    // The place of the first newline.
    fn newline(&self) -> Option<usize>
        ensures { MatchOption result (All (λ b. b ≢ 10) self.now) (λ n. BreaksAt self.now n) }
    {
        memchr(b'\n', &self.bytes[self.from..self.to])
    }

    /// How the bytes begin. Looks no further than at the first newline.
    #[tactic(auto, using(crate::proofs::Talking::too_long, crate::proofs::Talking::all_too_long))]
    pub fn front(&self) -> Front
        ensures { BeginsAs result self.now }
    {
        let Some(n) = self.newline() else {
            if self.bytes().len() > LONGEST_LINE {
                return Front::TooLong;
            }
            return Front::Part;
        };
        if n > LONGEST_LINE {
            return Front::TooLong;
        }
        Front::Line(n)
    }

    /// The first `n` bytes.
    pub fn first(&self, n: usize) -> &[u8]
        requires { n ≤ length self.now }
        ensures { result.now ≡ take n self.now }
    {
        &self.bytes[self.from..self.from + n]
    }

    /// Lets the first `n` bytes go.
    pub fn pass(&mut self, n: usize)
        requires { n ≤ length self.old }
        ensures { self.new ≡ drop n self.old }
    {
        self.from += n;
    }
}

// Copies bytes to the front of a buffer.
pub(crate) fn copy_in(buffer: &mut [u8], held: &[u8])
    requires { length held.now ≤ length buffer.old }
    ensures len { length buffer.new ≡ length buffer.old }
    ensures front { take (length held.now) buffer.new ≡ held.now }
{
    buffer[..held.len()].copy_from_slice(held);
}

// The same to the front of a vector.
fn copy_front(buffer: &mut Vec<u8>, held: &[u8])
    requires { length held.now ≤ vec_len buffer.old }
    ensures len { vec_len buffer.new ≡ vec_len buffer.old }
    ensures front { take (length held.now) buffer.new.items ≡ held.now }
{
    copy_in(buffer, held);
}

// Reads at most so many bytes behind the first ones of a buffer.
fn read_behind<P: Port>(
    port: &mut P,
    buffer: &mut Vec<u8>,
    at: usize,
    most: usize,
) -> Result<Option<usize>, Failed>
    requires some { 0 < most }
    requires room { at + most ≤ vec_len buffer.old }
    ensures len { vec_len buffer.new ≡ vec_len buffer.old }
    ensures front { take at buffer.new.items ≡ take at buffer.old.items }
    ensures most { moved result ≤ most }
    ensures given { P.given port.new
        ≡ append_known (P.given port.old) (take (moved result) (drop at buffer.new.items)) }
    ensures left { P.left port.old
        ≡ prepend_known (take (moved result) (drop at buffer.new.items)) (P.left port.new) }
    ensures end { result ≡ Ok (Some 0) → IsAtEnd (P.left port.new) }
    ensures cause { HasCause (P.unread port.old) (P.unread port.new) result }
    ensures written { P.written port.new ≡ P.written port.old }
    ensures unwritten { P.unwritten port.new ≡ P.unwritten port.old }
{
    port.read(&mut buffer[at..at + most])
}
