// A shelf in memory.
ghost use Rattle.std.specs.Prelude.{◌≡◌, ◌≤◌, ℕ, List, [], length, Option, Some, None, is_err, if◌then◌else◌};
ghost use Rattle.ifdb_io.specs.Causes.{HasCause};
ghost use Rattle.ifdb_io.specs.Memory.{counted};
ghost use Rattle.ifdb_disk.specs.Shelf.{Closes, Opens};
ghost use Rattle.ifdb_disk.specs.Memory.{open_fails};

use crate::{MemoryDisk, Shelf};
use ifdb_io::Failed;
use std::marker::Model;

/// A shelf in memory with one disk, which the first call of `open` that isn't told to fail gives;
/// later ones fail.
#[derive(Drop)]
pub struct MemoryShelf {
    next: Option<MemoryDisk>,
    back: Option<MemoryDisk>,
    name: Label,
    opens: u64,
    fails: Vec<u64>,
    faults: u64,
}

impl Model for MemoryShelf {
    ghost use Rattle.ifdb_disk.specs.Memory.{ShelfState};

    ghost Value = { ShelfState };

    ghost view = { λ s. record {
      row = record { next = s.next; opens = s.opens; name = s.name; back = s.back };
      fails = s.fails.items;
      faults = s.faults;
    } };
}

// A name of at most 255 bytes.
#[derive(Drop)]
struct Label {
    bytes: [u8; 255],
    len: usize,
}

impl Model for Label {
    ghost use Rattle.std.specs.Prelude.{ℕ, ◌≤◌, List, take};

    ghost Value = { List ℕ };

    ghost view = { λ l. take l.len l.bytes };

    ghost invariant = { λ l. l.len ≤ 255 };
}

impl Label {
    // Another name.
    fn set(&mut self, name: &str)
        requires { length name.now ≤ 255 }
        ensures { self.new ≡ name.now }
    {
        let bytes = name.as_bytes();
        self.bytes[..bytes.len()].copy_from_slice(bytes);
        self.len = bytes.len();
    }
}

impl MemoryShelf {
    /// A shelf with this disk. The calls of `open` whose numbers, from 0, are in `fails` fail, and
    /// each behind the one that gives the disk.
    pub fn new(disk: MemoryDisk, fails: Vec<u64>) -> MemoryShelf
        ensures { result ≡ record {
          row = record { next = Some disk; opens = 0; name = []; back = None };
          fails = fails.items;
          faults = 0;
        } }
    {
        MemoryShelf {
            next: Some(disk),
            back: None,
            name: Label {
                bytes: [0; 255],
                len: 0,
            },
            opens: 0,
            fails,
            faults: 0,
        }
    }

    /// The disk that the last call of `close` took; none where there was no such call.
    pub fn back(self) -> Option<MemoryDisk>
        ensures { result ≡ self.row.back }
    {
        self.back
    }
}

impl Shelf for MemoryShelf {
    type Disk = MemoryDisk;

    ghost tells = { λ s. Some s.row };

    ghost faults = { λ s. s.faults };

    fn open(&mut self, name: &str) -> Result<MemoryDisk, Failed>
        requires { (1 ≤ length name.now) × (length name.now ≤ 255) }
        ensures opened { Opens name.now (Some self.old.row) (Some self.new.row) result }
        ensures cause { HasCause self.old.faults self.new.faults result }
        ensures fails { is_err result ≡ open_fails self.old }
        ensures told { self.new.fails ≡ self.old.fails }
        ensures count { self.new.faults
            ≡ (if open_fails self.old then counted self.old.faults else self.old.faults) }
    {
        let call = self.opens;
        self.opens = call.saturating_add(1);
        self.name.set(name);
        if !self.fails.contains(&call) {
            if let Some(disk) = self.next.take() {
                return Ok(disk);
            }
        }
        self.faults = self.faults.saturating_add(1);
        Err(Failed)
    }

    fn close(&mut self, disk: MemoryDisk) {
        self.back = Some(disk);
    }
}
