// The bytes of a disk in memory, and every call that changed what it shows.
ghost use Rattle.std.specs.Prelude.{◌≡◌, ◌<◌, ◌≤◌, ◌+◌, ◌-◌, ◌^◌, ◌++◌, ◌∷◌, [], All, length, IfOk, replicate, vec_len, vec_capacity};
ghost use Rattle.ifdb_disk.specs.Images.{filled, filled_from, overwritten};
ghost use Rattle.ifdb_disk.specs.Memory.{IsBelow, past_clock, ranges_of, syncs, writes};

use ifdb_io::OutOfMemory;
use std::alloc::Global;
use std::marker::Model;

// A call that changed what the disk shows.
#[derive(Clone, Copy, Debug, PartialEq, Eq)]
pub(crate) enum Done {
    // So many bytes were written from a place on.
    Write(usize, usize),
    Sync,
}

// What was done to some bytes. All memory is taken when it is made.
#[derive(Drop)]
pub(crate) struct Track {
    first: Vec<u8>,
    bytes: Vec<u8>,
    // All bytes that were written, one write behind the other.
    log: Vec<u8>,
    done: Vec<Done>,
    // How many of the calls came up to the last sync.
    settled: usize,
    // How many bytes may be written in all, and how many calls there may be.
    room: usize,
    most: usize,
}

impl Model for Track {
    ghost use Rattle.std.specs.Prelude.{◌≡◌, ◌<◌, ◌≤◌, ◌+◌, ◌-◌, ◌^◌, All, drop, length, vec_len, vec_capacity};
    ghost use Rattle.ifdb_disk.specs.Memory.{IsBelow, Past, begun, calls_of, played, ranges_of, total};

    ghost Value = { Past };

    ghost view = { λ t. record {
      first = t.first.items;
      calls = calls_of t.done.items t.log.items;
      room = t.room - vec_len t.log;
      more = t.most - vec_len t.done;
    } };

    ghost invariant = { λ t. (total t.done.items ≡ length t.log.items)
        × ((played (begun t.first.items) (calls_of t.done.items t.log.items)).now.bytes
        ≡ t.bytes.items)
        × ((played (begun t.first.items) (calls_of t.done.items t.log.items)).now.loose
        ≡ ranges_of (drop t.settled t.done.items))
        × All (IsBelow (length t.bytes.items)) (drop t.settled t.done.items)
        × (vec_len t.log ≤ t.room)
        × (t.room ≤ vec_capacity t.log)
        × (vec_len t.bytes ≤ vec_len t.first + vec_len t.log)
        × (vec_len t.first + t.room ≤ vec_capacity t.bytes)
        × (vec_len t.first + t.room ≤ vec_capacity t.first)
        × (vec_len t.first + t.room < 2 ^ 62)
        × (vec_len t.done ≤ t.most)
        × (t.most ≤ vec_capacity t.done)
        × (t.settled ≤ vec_len t.done) };
}

impl Track {
    // These bytes, before the first call.
    pub(crate) fn new(
        alloc: Global,
        bytes: &[u8],
        room: usize,
        most: usize,
    ) -> Result<Track, OutOfMemory>
        requires { length bytes.now + room < 2 ^ 62 }
        ensures { IfOk result (λ track. track
            ≡ record { first = bytes.now; calls = []; room = room; more = most }) }
    {
        let size = bytes.len() + room;
        Ok(Track {
            first: copy(alloc, size, bytes)?,
            bytes: copy(alloc, size, bytes)?,
            log: Vec::with_capacity(alloc, room)?,
            done: Vec::with_capacity(alloc, most)?,
            settled: 0,
            room,
            most,
        })
    }

    // What a read gives.
    pub(crate) fn bytes(&self) -> &[u8]
        ensures bytes { result.now ≡ (past_clock self.now).now.bytes }
        ensures bound { length result.now < 2 ^ 62 }
    {
        &self.bytes
    }

    // How many bytes more can be written.
    pub(crate) fn room(&self) -> usize
        ensures { result ≡ self.now.room }
    {
        self.room - self.log.len()
    }

    // Puts bytes in the place of those that are there from `at` on.
    pub(crate) fn write(&mut self, at: usize, bytes: &[u8])
        requires at { at ≤ length (past_clock self.old).now.bytes }
        requires room { length bytes.now ≤ self.old.room }
        requires more { 0 < self.old.more }
        ensures bound { at + length bytes.now < 2 ^ 62 }
        ensures track { self.new ≡ record self.old {
          calls = self.old.calls ++ writes at bytes.now ∷ [];
          room = self.old.room - length bytes.now;
          more = self.old.more - 1;
        } }
    {
        overwrite(&mut self.bytes, at, bytes);
        add(&mut self.log, bytes);
        note(&mut self.done, Done::Write(at, bytes.len()));
    }

    // From now on a crash leaves these bytes.
    pub(crate) fn sync(&mut self)
        requires { 0 < self.old.more }
        ensures { self.new
            ≡ record self.old { calls = self.old.calls ++ syncs ∷ []; more = self.old.more - 1 } }
    {
        note(&mut self.done, Done::Sync);
        self.settled = self.done.len();
    }

    // What a crash may leave: each byte that was written since the last sync is `fill`.
    pub(crate) fn crash(self, fill: u8) -> Track
        ensures { result ≡ record {
          first = filled fill (past_clock self).now;
          calls = [];
          room = self.room;
          more = self.more;
        } }
    {
        let Track {
            mut first,
            mut bytes,
            mut log,
            mut done,
            settled,
            room,
            most,
        } = self;
        fill_written(&mut bytes, &done[settled..], fill);
        first.clear();
        add(&mut first, &bytes);
        let room = room - log.len();
        let most = most - done.len();
        log.clear();
        done.clear();
        Track {
            first,
            bytes,
            log,
            done,
            settled: 0,
            room,
            most,
        }
    }
}

// The bytes, with room for `size` of them.
fn copy(alloc: Global, size: usize, bytes: &[u8]) -> Result<Vec<u8>, OutOfMemory>
    requires { length bytes.now ≤ size }
    ensures items { IfOk result (λ v. v.items ≡ bytes.now) }
    ensures len { IfOk result (λ v. vec_len v ≡ length bytes.now) }
    ensures room { IfOk result (λ v. size ≤ vec_capacity v) }
{
    let mut all = Vec::with_capacity(alloc, size)?;
    add(&mut all, bytes);
    Ok(all)
}

// Puts bytes in the place of those that are there from `at` on, for which there is room.
fn overwrite(all: &mut Vec<u8>, at: usize, bytes: &[u8])
    requires at { at ≤ vec_len all.old }
    requires room { vec_len all.old + length bytes.now ≤ vec_capacity all.old }
    ensures items { all.new.items ≡ overwritten all.old.items at bytes.now }
    ensures len { vec_len all.new ≤ vec_len all.old + length bytes.now }
    ensures below { at + length bytes.now ≤ vec_len all.new }
    ensures longer { vec_len all.old ≤ vec_len all.new }
    ensures room { vec_capacity all.old ≤ vec_capacity all.new }
{
    let over = bytes.len().min(all.len() - at);
    all[at..at + over].copy_from_slice(&bytes[..over]);
    add(all, &bytes[over..]);
}

// Adds bytes for which there is room.
fn add(all: &mut Vec<u8>, bytes: &[u8])
    requires { vec_len all.old + length bytes.now ≤ vec_capacity all.old }
    ensures items { all.new.items ≡ all.old.items ++ bytes.now }
    ensures len { vec_len all.new ≡ vec_len all.old + length bytes.now }
    ensures room { vec_capacity all.old ≤ vec_capacity all.new }
{
    let _ = all.extend_from_slice(bytes);
}

// Adds a call for which there is room.
fn note(all: &mut Vec<Done>, call: Done)
    requires { vec_len all.old + 1 ≤ vec_capacity all.old }
    ensures items { all.new.items ≡ all.old.items ++ call ∷ [] }
    ensures len { vec_len all.new ≡ vec_len all.old + 1 }
    ensures room { vec_capacity all.old ≤ vec_capacity all.new }
{
    let _ = all.push(call);
}

// Puts one byte in the place of each that these calls wrote.
fn fill_written(bytes: &mut Vec<u8>, done: &[Done], fill: u8)
    requires { All (IsBelow (length bytes.old.items)) done.now }
    ensures items { bytes.new.items
        ≡ filled_from 0 (ranges_of done.now) fill bytes.old.items }
    ensures len { vec_len bytes.new ≡ vec_len bytes.old }
    ensures room { vec_capacity bytes.old ≤ vec_capacity bytes.new }
{
    for call in done {
        match *call {
            Done::Write(at, len) => fill_range(bytes, at, len, fill),
            Done::Sync => {}
        }
    }
}

// Puts one byte in the place of `len` from `at` on.
fn fill_range(bytes: &mut Vec<u8>, at: usize, len: usize, fill: u8)
    requires { at + len ≤ vec_len bytes.old }
    ensures items { bytes.new.items ≡ overwritten bytes.old.items at (replicate len fill) }
    ensures len { vec_len bytes.new ≡ vec_len bytes.old }
    ensures room { vec_capacity bytes.old ≤ vec_capacity bytes.new }
{
    bytes[at..at + len].fill(fill);
}
