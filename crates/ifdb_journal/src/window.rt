// What was read ahead of a disk.
ghost use Rattle.std.specs.Prelude.{◌≡◌, ◌≤◌, ◌<◌, ◌+◌, ◌^◌, [], length, take, drop, IfOk, OnOk, vec_len, vec_capacity};
ghost use Rattle.ifdb_io.specs.Causes.{HasCause};
ghost use Rattle.ifdb_disk.specs.Images.{Reads};
ghost use Rattle.ifdb_disk.specs.Clock.{Now};
ghost use Rattle.ifdb_journal.specs.Reading.{StandsAt};

use crate::text::add;
use ifdb_disk::Disk;
use ifdb_io::{Failed, OutOfMemory};
use std::alloc::Global;
use std::marker::Model;

/// The longest record with its gate, and the gate behind it.
pub(crate) const LONGEST: usize = 65_550;

// The bytes from a place of a disk on, as far as they were read. Records are judged in it, so it
// has room for the longest.
#[derive(Drop)]
pub(crate) struct Window {
    // What a call of the disk gave.
    chunk: Vec<u8>,
    // What was read, of which the first `from` bytes are done with.
    text: Vec<u8>,
    from: usize,
}

impl Model for Window {
    ghost use Rattle.std.specs.Prelude.{ℕ, ◌≡◌, ◌≤◌, List, drop, vec_len, vec_capacity};

    ghost Value = { List ℕ };

    ghost view = { λ w. drop w.from w.text.items };

    ghost invariant = { λ w. (vec_len w.chunk ≡ 65550) × (65550 ≤ vec_capacity w.text)
        × (vec_len w.text ≤ 65550) × (w.from ≤ vec_len w.text) };
}

impl Window {
    // A window with nothing in it.
    pub(crate) fn new(alloc: Global) -> Result<Window, OutOfMemory>
        ensures { IfOk result (λ window. window ≡ []) }
    {
        Ok(Window {
            chunk: vec![in alloc; 0; LONGEST]?,
            text: Vec::with_capacity(alloc, LONGEST)?,
            from: 0,
        })
    }

    // What it holds.
    pub(crate) fn bytes(&self) -> &[u8]
        ensures bytes { result.now ≡ self.now }
        ensures most { length self.now ≤ 65550 }
    {
        &self.text[self.from..]
    }

    // Goes past some bytes.
    pub(crate) fn skip(&mut self, count: usize)
        requires { count ≤ length self.old }
        ensures { self.new ≡ drop count self.old }
    {
        self.from += count;
    }

    // Goes past all of them.
    pub(crate) fn clear(&mut self)
        ensures { self.new ≡ [] }
    {
        self.text.clear();
        self.from = 0;
    }

    // Reads on, up to the longest record or the end of the disk. The window is at this place.
    pub(crate) fn fill<D: Disk>(&mut self, disk: &mut D, at: u64) -> Result<(), Failed>
        requires { at + length self.old < 2 ^ 62 }
        ensures bytes { OnOk result (StandsAt (D.tells disk.old) at self.old
            → Now (D.tells disk.old) (λ s. self.new ≡ take 65550 (drop at s.bytes))) }
        ensures end { at + length self.new < 2 ^ 62 }
        ensures still { D.tells disk.new ≡ D.tells disk.old }
        ensures cause { HasCause (D.faults disk.old) (D.faults disk.new) result }
    {
        shift(&mut self.text, self.from);
        self.from = 0;
        gather(disk, at, &mut self.chunk, &mut self.text)
    }
}

// Drops the first bytes.
fn shift(text: &mut Vec<u8>, count: usize)
    requires { count ≤ vec_len text.old }
    ensures items { text.new.items ≡ drop count text.old.items }
    ensures len { vec_len text.new + count ≡ vec_len text.old }
    ensures room { vec_capacity text.old ≤ vec_capacity text.new }
{
    let size = text.len();
    text.copy_within(count..size, 0);
    text.truncate(size - count);
}

// Reads on from a text that stands at a place, up to the longest record or the end of the disk.
fn gather<D: Disk>(
    disk: &mut D,
    at: u64,
    chunk: &mut Vec<u8>,
    text: &mut Vec<u8>,
) -> Result<(), Failed>
    requires place { at + vec_len text.old < 2 ^ 62 }
    requires chunk { vec_len chunk.old ≡ 65550 }
    requires room { 65550 ≤ vec_capacity text.old }
    requires most { vec_len text.old ≤ 65550 }
    ensures bytes { OnOk result (StandsAt (D.tells disk.old) at text.old.items
        → Now (D.tells disk.old) (λ s. text.new.items ≡ take 65550 (drop at s.bytes))) }
    ensures end { at + vec_len text.new < 2 ^ 62 }
    ensures still { D.tells disk.new ≡ D.tells disk.old }
    ensures room { 65550 ≤ vec_capacity text.new }
    ensures most { vec_len text.new ≤ 65550 }
    ensures chunk { vec_len chunk.new ≡ 65550 }
    ensures cause { HasCause (D.faults disk.old) (D.faults disk.new) result }
{
    while text.len() < LONGEST {
        let room = LONGEST - text.len();
        let count = read_some(disk, at + text.len() as u64, chunk, room)?;
        if count == 0 {
            return Ok(());
        }
        add(text, &chunk[..count]);
    }
    Ok(())
}

// Reads into the first bytes of a chunk, whose length stays.
fn read_some<D: Disk>(
    disk: &mut D,
    at: u64,
    chunk: &mut Vec<u8>,
    room: usize,
) -> Result<usize, Failed>
    requires { room ≤ vec_len chunk.old }
    ensures bound { IfOk result (λ n. n ≤ room) }
    ensures length { vec_len chunk.new ≡ vec_len chunk.old }
    ensures end { IfOk result (λ n. 0 < n → at + n < 2 ^ 62) }
    ensures bytes { IfOk result
        (λ n. Now (D.tells disk.old) (Reads at n (take room chunk.new.items))) }
    ensures still { D.tells disk.new ≡ D.tells disk.old }
    ensures cause { HasCause (D.faults disk.old) (D.faults disk.new) result }
{
    read_front(disk, at, chunk, room)
}

// The same into a slice.
fn read_front<D: Disk>(
    disk: &mut D,
    at: u64,
    buffer: &mut [u8],
    room: usize,
) -> Result<usize, Failed>
    requires { room ≤ length buffer.old }
    ensures bound { IfOk result (λ n. n ≤ room) }
    ensures end { IfOk result (λ n. 0 < n → at + n < 2 ^ 62) }
    ensures bytes { IfOk result (λ n. Now (D.tells disk.old) (Reads at n (take room buffer.new))) }
    ensures still { D.tells disk.new ≡ D.tells disk.old }
    ensures cause { HasCause (D.faults disk.old) (D.faults disk.new) result }
{
    disk.read(at, &mut buffer[..room])
}
