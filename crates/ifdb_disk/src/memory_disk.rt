// A disk in memory.
ghost use Rattle.std.specs.Prelude.{◌≡◌, ◌<◌, ◌≤◌, ◌+◌, ◌-◌, ◌^◌, Some, [], false, is_err, length, IfOk, OnOk, OnErr};
ghost use Rattle.std.specs.Io.{ReadsAtMost};
ghost use Rattle.ifdb_io.specs.Causes.{HasCause};
ghost use Rattle.ifdb_disk.specs.Images.{IsImage, Reads, filled, synced, written};
ghost use Rattle.ifdb_disk.specs.Clock.{MayHaveWritten, Now, goes};
ghost use Rattle.ifdb_disk.specs.Memory.{after_sync, after_write, clock_of, sync_fails, write_fails};

use crate::Disk;
use crate::track::Track;
use ifdb_io::{Failed, OutOfMemory};
use std::alloc::Global;
use std::marker::Model;

/// A disk in memory, which fails at the writes and syncs that it was told, and past its room.
#[derive(Drop)]
pub struct MemoryDisk {
    track: Track,
    most: u64,
    count: u64,
    fails: Vec<u64>,
    faults: u64,
}

impl Model for MemoryDisk {
    ghost use Rattle.std.specs.Prelude.{◌≤◌, ◌+◌};
    ghost use Rattle.ifdb_disk.specs.Memory.{DiskState};

    ghost Value = { DiskState };

    ghost view = { λ d. record {
      first = d.track.first;
      calls = d.track.calls;
      room = d.track.room;
      most = d.most;
      count = d.count;
      fails = d.fails.items;
      faults = d.faults;
    } };

    ghost invariant = { λ d. d.most ≤ d.count + d.track.more };
}

impl MemoryDisk {
    /// A disk of these bytes, all of them synced. The memory for `room` bytes that are written in
    /// all, and for `calls` writes and syncs, is taken here. Of these calls, numbered together
    /// from 0, those in `fails` write and fail; all past the room or the calls fail and write
    /// nothing; no other fails.
    ///
    /// # Errors
    /// `OutOfMemory`, also where the bytes could come to 2^62 or more.
    pub fn new(
        alloc: Global,
        bytes: Vec<u8>,
        room: u64,
        calls: u64,
        fails: Vec<u64>,
    ) -> Result<MemoryDisk, OutOfMemory>
        ensures { IfOk result (λ disk. disk ≡ record {
          first = bytes.items;
          calls = [];
          room = room;
          most = calls;
          count = 0;
          fails = fails.items;
          faults = 0;
        }) }
    {
        const LONGEST: u64 = 1 << 62;
        if bytes.len() as u64 >= LONGEST || room >= LONGEST - bytes.len() as u64 {
            return Err(OutOfMemory);
        }
        Ok(MemoryDisk {
            track: Track::new(alloc, &bytes, room as usize, calls as usize)?,
            most: calls,
            count: 0,
            fails,
            faults: 0,
        })
    }

    /// What a read gives.
    pub fn bytes(&self) -> &[u8]
        ensures { result.now ≡ (clock_of self.now).now.bytes }
    {
        self.track.bytes()
    }

    /// A disk of what a crash may leave: every byte that was written since the last sync is `fill`,
    /// and the length is the present one. It fails at none of the calls, and in none of the room,
    /// that are left.
    pub fn crash(self, fill: u8) -> MemoryDisk
        ensures image { IsImage (clock_of self).now result.first }
        ensures state { result ≡ record {
          first = filled fill (clock_of self).now;
          calls = [];
          room = self.room;
          most = self.most - self.count;
          count = 0;
          fails = [];
          faults = 0;
        } }
    {
        let MemoryDisk {
            track,
            most,
            count,
            mut fails,
            ..
        } = self;
        fails.clear();
        MemoryDisk {
            track: track.crash(fill),
            most: most.saturating_sub(count),
            count: 0,
            fails,
            faults: 0,
        }
    }
}

impl Disk for MemoryDisk {
    ghost use Rattle.std.specs.Prelude.{Some};
    ghost use Rattle.ifdb_disk.specs.Memory.{clock_of};
    ghost use Rattle.ifdb_disk.specs.Present.{kept_image};

    ghost tells = { λ d. Some (clock_of d) };

    ghost faults = { λ d. d.faults };

    ghost present = { λ d. kept_image d };

    /// Never fails.
    fn len(&mut self) -> Result<u64, Failed>
        ensures bound { IfOk result (λ n. n < 2 ^ 62) }
        ensures length { IfOk result
            (λ n. Now (Some (clock_of self.old)) (λ s. n ≡ length s.bytes)) }
        ensures still { Some (clock_of self.new) ≡ Some (clock_of self.old) }
        ensures cause { HasCause self.old.faults self.new.faults result }
        ensures never_fails { is_err result ≡ false }
        ensures state { self.new ≡ self.old }
    {
        Ok(self.track.bytes().len() as u64)
    }

    /// Never fails, and gives as much as the buffer has room for.
    fn read(&mut self, at: u64, buf: &mut [u8]) -> Result<usize, Failed>
        ensures bound { ReadsAtMost result buf.new }
        ensures end { IfOk result (λ n. 0 < n → at + n < 2 ^ 62) }
        ensures bytes { IfOk result (λ n. Now (Some (clock_of self.old)) (Reads at n buf.new)) }
        ensures still { Some (clock_of self.new) ≡ Some (clock_of self.old) }
        ensures cause { HasCause self.old.faults self.new.faults result }
        ensures never_fails { is_err result ≡ false }
        ensures state { self.new ≡ self.old }
    {
        let bytes = self.track.bytes();
        if at >= bytes.len() as u64 {
            return Ok(0);
        }
        let at = at as usize;
        let count = buf.len().min(bytes.len() - at);
        buf[..count].copy_from_slice(&bytes[at..at + count]);
        Ok(count)
    }

    fn write(&mut self, at: u64, bytes: &[u8]) -> Result<(), Failed>
        requires { at ≤ length (clock_of self.old).now.bytes }
        ensures bound { OnOk result (at + length bytes.now < 2 ^ 62) }
        ensures ok { OnOk result
            (Some (clock_of self.new) ≡ goes (written at bytes.now) (Some (clock_of self.old))) }
        ensures err { OnErr result (MayHaveWritten at (length bytes.now)
            (Some (clock_of self.old)) (Some (clock_of self.new))) }
        ensures cause { HasCause self.old.faults self.new.faults result }
        ensures fails { is_err result ≡ write_fails self.old (length bytes.now) }
        ensures state { self.new ≡ after_write self.old at bytes.now }
    {
        let call = self.count;
        self.count = call.saturating_add(1);
        if call >= self.most || bytes.len() > self.track.room() {
            self.faults = self.faults.saturating_add(1);
            return Err(Failed);
        }
        self.track.write(at as usize, bytes);
        if self.fails.contains(&call) {
            self.faults = self.faults.saturating_add(1);
            return Err(Failed);
        }
        Ok(())
    }

    fn sync(&mut self) -> Result<(), Failed>
        ensures ok { OnOk result
            (Some (clock_of self.new) ≡ goes synced (Some (clock_of self.old))) }
        ensures err { OnErr result (Some (clock_of self.new) ≡ Some (clock_of self.old)) }
        ensures cause { HasCause self.old.faults self.new.faults result }
        ensures fails { is_err result ≡ sync_fails self.old }
        ensures state { self.new ≡ after_sync self.old }
    {
        let call = self.count;
        self.count = call.saturating_add(1);
        if call >= self.most || self.fails.contains(&call) {
            self.faults = self.faults.saturating_add(1);
            return Err(Failed);
        }
        self.track.sync();
        Ok(())
    }
}
