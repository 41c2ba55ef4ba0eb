// A folder in memory.
ghost use Rattle.std.specs.Prelude.{◌≡◌, ◌≤◌, ◌∷◌, [], None, Some, is_some};
ghost use Rattle.ifdb_io.specs.Causes.{Rose};
ghost use Rattle.ifdb_io.specs.Memory.{counted};
ghost use Rattle.ifdb_folder.specs.Folders.{disk_of, with_disk};

use crate::{Folder, Named};
use ifdb_disk::MemoryDisk;
use ifdb_io::Failed;
use std::marker::Model;

/// A folder in memory with two disks. A call of `has`, `take` or `replace` that was told to fail, or of `take` for a name that has
/// no disk then, fails and changes nothing.
#[derive(Drop)]
pub struct MemoryFolder {
    first: Named<MemoryDisk>,
    second: Named<MemoryDisk>,
    fails: Vec<u64>,
    calls: u64,
    faults: u64,
}

impl Model for MemoryFolder {
    ghost use Rattle.std.specs.Prelude.{◌∷◌, []};
    ghost use Rattle.ifdb_folder.specs.Folders.{FolderState};

    ghost Value = { FolderState };

    ghost view = { λ f. record {
      disks = f.first ∷ f.second ∷ [];
      fails = f.fails.items;
      calls = f.calls;
      faults = f.faults;
    } };
}

impl MemoryFolder {
    /// These two disks. The calls of `has`, `take` and `replace`, numbered together from 0, fail that are in `fails`.
    pub fn new(first: Named<MemoryDisk>, second: Named<MemoryDisk>, fails: Vec<u64>) -> MemoryFolder
        ensures { result ≡ record {
          disks = first ∷ second ∷ [];
          fails = fails.items;
          calls = 0;
          faults = 0;
        } }
    {
        MemoryFolder {
            first,
            second,
            fails,
            calls: 0,
            faults: 0,
        }
    }

    // Counts a call, and tells whether it is to fail.
    fn fails(&mut self) -> bool
        ensures state { self.new ≡ record self.old { calls = counted self.old.calls } }
        ensures faults { self.new.faults ≡ self.old.faults }
    {
        let call = self.calls;
        self.calls = call.saturating_add(1);
        self.fails.contains(&call)
    }

    // Counts a fault.
    fn failed(&mut self) -> Failed
        ensures state { self.new ≡ record self.old { faults = counted self.old.faults } }
        ensures later { self.old.faults ≤ self.new.faults }
        ensures rose { Rose self.old.faults self.new.faults }
    {
        self.faults = self.faults.saturating_add(1);
        Failed
    }

    // Whether a disk has a name.
    fn has_named(&self, name: &str) -> bool
        ensures { result ≡ is_some (disk_of name.now self.now.disks) }
    {
        if self.first.name.is(name) {
            return self.first.disk.is_some();
        }
        self.second.name.is(name) && self.second.disk.is_some()
    }

    // Takes the disk of a name, if one has it.
    fn take_named(&mut self, name: &str) -> Option<MemoryDisk>
        ensures disk { result ≡ disk_of name.now self.old.disks }
        ensures state { self.new
            ≡ record self.old { disks = with_disk name.now None self.old.disks } }
        ensures faults { self.new.faults ≡ self.old.faults }
    {
        if self.first.name.is(name) {
            return self.first.disk.take();
        }
        if self.second.name.is(name) {
            return self.second.disk.take();
        }
        None
    }

    // Lets a name have a disk, or none.
    fn put_named(&mut self, name: &str, disk: Option<MemoryDisk>)
        ensures state { self.new
            ≡ record self.old { disks = with_disk name.now disk self.old.disks } }
        ensures faults { self.new.faults ≡ self.old.faults }
    {
        if self.first.name.is(name) {
            self.first.disk = disk;
        } else if self.second.name.is(name) {
            self.second.disk = disk;
        } else {
            drop(disk);
        }
    }
}

impl Folder for MemoryFolder {
    ghost use Rattle.std.specs.Prelude.{Some};

    type Disk = MemoryDisk;

    ghost tells = { λ f. Some f.disks };

    ghost faults = { λ f. f.faults };

    fn has(&mut self, name: &str) -> Result<bool, Failed> {
        if self.fails() {
            return Err(self.failed());
        }
        Ok(self.has_named(name))
    }

    fn take(&mut self, name: &str) -> Result<MemoryDisk, Failed> {
        if self.fails() {
            return Err(self.failed());
        }
        match self.take_named(name) {
            Some(disk) => Ok(disk),
            None => Err(self.failed()),
        }
    }

    fn give(&mut self, name: &str, disk: MemoryDisk) {
        self.put_named(name, Some(disk));
    }

    fn replace(
        &mut self,
        new: &str,
        disk: MemoryDisk,
        old: &str,
        gone: MemoryDisk,
    ) -> Result<(), Failed> {
        if self.fails() {
            self.put_named(new, Some(disk));
            self.put_named(old, Some(gone));
            return Err(self.failed());
        }
        drop(gone);
        self.put_named(new, None);
        self.put_named(old, Some(disk));
        Ok(())
    }
}
