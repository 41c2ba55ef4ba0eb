// What disks are had from by their names, and what lets one take the place of another.
ghost use Rattle.std.specs.Prelude.{◌≡◌, ◌≢◌, ◌≤◌, ℕ, IfOk, List, OnErr, OnOk, Option, length};
ghost use Rattle.ifdb_io.specs.Causes.{HasCause};
ghost use Rattle.ifdb_folder.specs.Folders.{Gives, IsThere, MayReplace, Replaces, Takes};
ghost use Rattle.ifdb_folder.specs.declared.named.Named.{Named as AnyNamed};

use ifdb_disk::Disk;
use ifdb_io::Failed;

/// Disks by their names, which stay when a crash ends the program.
pub trait Folder {
    /// The disks in it.
    type Disk: Disk;

    /// The names, and the disk of each that isn't taken, where it tells them.
    ghost tells: { Self → Option (List (AnyNamed Self.Disk)) };

    /// How often a call has failed, up to 2^64 - 1.
    ghost faults: { Self → ℕ };

    /// Whether something has a name of 1 to 255 bytes.
    fn has(&mut self, name: &str) -> Result<bool, Failed>
        requires { (1 ≤ length name.now) × (length name.now ≤ 255) }
        ensures told { IfOk result (λ there. IsThere name.now there (tells self.old)) }
        ensures same { tells self.new ≡ tells self.old }
        ensures cause { HasCause (faults self.old) (faults self.new) result };

    /// Takes the disk of a name of 1 to 255 bytes. Where nothing has the name, it may make an empty one.
    fn take(&mut self, name: &str) -> Result<Self::Disk, Failed>
        requires { (1 ≤ length name.now) × (length name.now ≤ 255) }
        ensures taken { IfOk result
            (λ disk. Takes name.now disk (tells self.old) (tells self.new)) }
        ensures err { OnErr result (tells self.new ≡ tells self.old) }
        ensures cause { HasCause (faults self.old) (faults self.new) result };

    /// Gives a disk back under the name that it was taken by.
    fn give(&mut self, name: &str, disk: Self::Disk)
        requires { (1 ≤ length name.now) × (length name.now ≤ 255) }
        ensures given { Gives name.now disk (tells self.old) (tells self.new) }
        ensures faults { faults self.new ≡ faults self.old };

    /// Lets a disk that was taken by the name `new` have the name `old`, in the place of the one that was taken by that, which is gone
    /// then; the name `new` has none. It's one step, and nobody else can take either before its end: a crash before leaves each name
    /// its disk, and one after `Ok` what it says.
    ///
    /// # Errors
    /// `Failed` gives both back, each under its name or as after `Ok`.
    fn replace(
        &mut self,
        new: &str,
        disk: Self::Disk,
        old: &str,
        gone: Self::Disk,
    ) -> Result<(), Failed>
        requires new { (1 ≤ length new.now) × (length new.now ≤ 255) }
        requires old { (1 ≤ length old.now) × (length old.now ≤ 255) }
        requires apart { new.now ≢ old.now }
        ensures replaced { OnOk result
            (Replaces new.now disk old.now (tells self.old) (tells self.new)) }
        ensures err { OnErr result
            (MayReplace new.now disk old.now gone (tells self.old) (tells self.new)) }
        ensures cause { HasCause (faults self.old) (faults self.new) result };
}
