// A database that is made again from its log.
ghost use Rattle.std.specs.Prelude.{◌≡◌, ℕ, List, [], IfErr, IfOk};
ghost use Rattle.ifdb_disk.specs.Clock.{Leaves};
ghost use Rattle.ifdb_journal.specs.Reading.{Holds};
ghost use Rattle.ifdb_log.specs.Behind.{behind};
ghost use Rattle.ifdb_log.specs.Reading.{held};
ghost use Rattle.ifdb_log.specs.Title.{IsLog, IsSettled};
ghost use Rattle.ifdb_model.specs.Log.{Entry};
ghost use Rattle.ifdb_durable.specs.Seats.{IsOpened};
ghost use Rattle.ifdb_restart.specs.Restarted.{IsClosedOver, log_in};
ghost use Rattle.ifdb_reopen.specs.Causes.{IsCaused};
ghost use Rattle.ifdb_reopen.specs.Files.{IsOldOrBare, IsTold, ShowsLog};

use ifdb_disk::Disk;
use ifdb_durable::Opened;
use ifdb_journal::Batch;
use ifdb_log::{Behind, LogFault, Origin, TITLE_SIZE};
use ifdb_restart::{Restarted, restart};
use std::alloc::{AllocError, Global};

/// A database that was made again from its log, with what it needs to be shared and appended to.
#[derive(Drop)]
pub struct Reopened<B: Origin, D: Disk> {
    /// The room with all entries of the log, and the journal, which is to be appended to.
    pub restarted: Restarted,
    /// What lies behind the title.
    pub disk: Behind<B, D>,
    /// What replies will wait by.
    pub means: Means<Behind<B, D>>,
}

/// What a history takes that is kept on a disk.
#[derive(Drop)]
pub struct Means<D> {
    /// The mark of the journal, at no records.
    pub mark: Opened<D>,
    /// The records that will wait: none yet.
    pub waiting: Batch,
    /// The records that will be appended next: none yet.
    pub in_hand: Batch,
}

/// A disk from whose log no database was made again.
#[derive(Drop)]
pub struct NotReopened<D> {
    /// Why.
    pub fault: LogFault,
    /// The disk.
    pub disk: D,
}

/// Makes a database again from the log of a disk that is all synced and begins with the title, whatever lies behind it. Takes the
/// memory of the rows, of the longest record, and of two batches for so many bytes of records each. Each record costs what its
/// entry did, but for the search of its rows. On a disk with nothing but the title, or one byte behind it, it writes a closed
/// gate.
///
/// # Errors
/// `Damaged` with the byte of the file, only where it restores no log: there no record stands behind an open gate, or one that is
/// no piece of a text, or a text that is no redo record, or that doesn't fit those before it. `Disk` where the disk failed;
/// `OutOfMemory`. The disk comes back.
pub fn reopen<B: Origin, D: Disk + Drop>(
    alloc: Global,
    disk: D,
    room: usize,
) -> Result<Reopened<B, D>, NotReopened<D>>
    requires begun { B.begun ≡ D.tells disk }
    requires titled { IsSettled IsLog (D.tells disk) }
    ensures holds { IfOk result (λ it. let t = behind it.disk.size (D.tells it.disk.disk) in
        Holds t (held t) it.restarted.journal.at) }
    ensures stands { IfOk result (λ it.
        IsClosedOver it.restarted.room (log_in it.restarted.made.items)) }
    ensures shows { IfOk result (λ it. IsTold (D.tells disk) → (it.disk.size ≡ 16)
        × ((texts : List (List ℕ))
        × ShowsLog (D.tells it.disk.disk) texts (log_in it.restarted.made.items))) }
    ensures same { IfOk result (λ it. (texts : List (List ℕ)) (log : List Entry)
        → ShowsLog (D.tells disk) texts log → log_in it.restarted.made.items ≡ log) }
    ensures mark { IfOk result (λ it. IsOpened it.means.mark) }
    ensures empty { IfOk result (λ it.
        (it.means.waiting.records ≡ []) × (it.means.in_hand.records ≡ [])) }
    ensures moments { IfOk result (λ it.
        Leaves (D.tells disk) (D.tells it.disk.disk) (IsOldOrBare (D.tells disk))) }
    ensures calm { IfOk result (λ it. D.faults it.disk.disk ≡ D.faults disk) }
    ensures damaged { IfErr result (λ e. (at : ℕ) → e.fault ≡ LogFault.Damaged at
        → (texts : List (List ℕ)) (log : List Entry) → ShowsLog (D.tells disk) texts log → ⊥) }
    ensures titled { IfErr result (λ e. e.fault ≡ LogFault.NotALog → ⊥) }
    ensures left { IfErr result (λ e.
        Leaves (D.tells disk) (D.tells e.disk) (IsOldOrBare (D.tells disk))) }
    ensures cause { IfErr result (λ e. IsCaused (D.faults disk) (D.faults e.disk) e.fault) }
{
    let Ok(means) = take_means(alloc, room) else {
        return Err(NotReopened {
            fault: LogFault::OutOfMemory,
            disk,
        });
    };
    let mut behind: Behind<B, D> = Behind::new(disk, TITLE_SIZE);
    match restart(alloc, &mut behind) {
        Ok(restarted) => Ok(Reopened {
            restarted,
            disk: behind,
            means,
        }),
        Err(fault) => Err(NotReopened {
            fault,
            disk: behind.into_disk(),
        }),
    }
}

// A mark, and two batches for so many bytes of records.
fn take_means<D: Drop>(alloc: Global, room: usize) -> Result<Means<D>, AllocError>
    ensures mark { IfOk result (λ it. IsOpened it.mark) }
    ensures empty { IfOk result (λ it. (it.waiting.records ≡ []) × (it.in_hand.records ≡ [])) }
{
    Ok(Means {
        mark: Opened::new(alloc)?,
        waiting: Batch::new(alloc, room)?,
        in_hand: Batch::new(alloc, room)?,
    })
}
