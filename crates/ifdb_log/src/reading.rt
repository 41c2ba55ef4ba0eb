// A log, read text by text.
ghost use Rattle.std.specs.Prelude.{◌≡◌, ◌<◌, ◌+◌, ◌^◌, ◌++◌, ◌∷◌, [], ℕ, List, Ok, Err, None, Some, true, false, IfOk, OnOk};
ghost use Rattle.ifdb_disk.specs.Clock.{Leaves};
ghost use Rattle.ifdb_journal.specs.Reading.{IsOldOrShort, SpellsSame};
ghost use Rattle.ifdb_log.specs.Causes.{HasLogCause};
ghost use Rattle.ifdb_log.specs.Pieces.{with_piece};
ghost use Rattle.ifdb_log.specs.Reading.{HasRead, HoldsTexts, IsDamaged, begun_of, told};

use crate::pieces::{FIRST, FURTHER, PIECE_SIZE};
use crate::{LogFault, TITLE_SIZE};
use ifdb_disk::Disk;
use ifdb_journal::{Journal, JournalFault, Record, RecordKind};
use std::alloc::{AllocError, Global};
use std::marker::Model;

/// A log that is read text by text, to its end: a place in the journal behind a title, and the text
/// that was read last. Each call needs the disk as the last one left it: what lies behind the
/// title, as a disk of its own.
#[derive(Drop)]
pub struct Log {
    journal: Journal,
    text: Vec<u8>,
}

impl Model for Log {
    ghost use Rattle.ifdb_log.specs.Reading.{Reading};

    ghost Value = { Reading };

    ghost view = { λ log. record { place = log.journal; text = log.text.items } };
}

impl Log {
    /// Begins to read what lies behind a title, after a sync. On a disk of at most 1 byte it writes
    /// a closed gate. Takes 192 KiB.
    ///
    /// # Errors
    /// `OutOfMemory` before the disk is touched; `Disk` where the disk failed.
    pub fn start<D: Disk>(alloc: Global, disk: &mut D) -> Result<Log, LogFault>
        ensures begun { IfOk result (λ log. HasRead (D.tells disk.new) [] log.place) }
        ensures same { OnOk result (SpellsSame (D.tells disk.old) (D.tells disk.new)) }
        ensures moments { Leaves (D.tells disk.old) (D.tells disk.new)
            (IsOldOrShort (D.tells disk.old)) }
        ensures cause { HasLogCause (D.faults disk.old) (D.faults disk.new) result }
        ensures sound { (at : ℕ) → result ≡ Err (LogFault.Damaged at) → ⊥ }
        ensures titled { result ≡ Err LogFault.NotALog → ⊥ }
        ensures memory { result ≡ Err LogFault.OutOfMemory → disk.new ≡ disk.old }
    {
        match Journal::start(alloc, disk) {
            Ok(journal) => Ok(Log {
                journal,
                text: Vec::new(alloc),
            }),
            Err(fault) => Err(told(fault)),
        }
    }

    /// Reads the next text, which is then the one of `text`. False at the end: a text without its
    /// last piece is none. Takes memory for the text, and for each of its pieces.
    ///
    /// # Errors
    /// `Damaged` with the byte of the file where no record stands behind an open gate, or a record
    /// that is no piece of a text; `Disk` where the disk failed; `OutOfMemory`. No call is of use
    /// after them.
    pub fn next<D: Disk>(&mut self, alloc: Global, disk: &mut D) -> Result<bool, LogFault>
        ensures text { result ≡ Ok true
            → (texts : List (List ℕ)) → HasRead (D.tells disk.old) texts self.old.place
            → HasRead (D.tells disk.new) (texts ++ self.new.text ∷ []) self.new.place }
        ensures end { result ≡ Ok false
            → (texts : List (List ℕ)) → HasRead (D.tells disk.old) texts self.old.place
            → HoldsTexts (D.tells disk.new) texts self.new.place.at }
        ensures damaged { (at : ℕ) → result ≡ Err (LogFault.Damaged at)
            → (texts : List (List ℕ)) → HasRead (D.tells disk.old) texts self.old.place
            → IsDamaged (D.tells disk.new) at }
        ensures moves { result ≡ Ok true
            → (self.old.place.at < self.new.place.at) × (self.old.place.at < 2 ^ 62) }
        ensures titled { result ≡ Err LogFault.NotALog → ⊥ }
        ensures still { D.tells disk.new ≡ D.tells disk.old }
        ensures cause { HasLogCause (D.faults disk.old) (D.faults disk.new) result }
    {
        read_text(alloc, disk, &mut self.journal, &mut self.text)
    }

    /// The byte of the file where the next record stands, or is to stand.
    pub fn place(&self) -> u64
        ensures { result ≡ 16 + self.now.place.at }
    {
        TITLE_SIZE + self.journal.place()
    }

    /// The text that was read last.
    pub fn text(&self) -> &[u8]
        ensures { result.now ≡ self.now.text }
    {
        &self.text
    }

    /// Its journal, to be appended to once all texts were read.
    pub fn into_journal(self) -> Journal
        ensures { result ≡ self.place }
    {
        self.journal
    }
}

// Reads the next text of a journal. False at the end.
fn read_text<D: Disk>(
    alloc: Global,
    disk: &mut D,
    journal: &mut Journal,
    text: &mut Vec<u8>,
) -> Result<bool, LogFault>
    ensures text { result ≡ Ok true
        → (texts : List (List ℕ)) → HasRead (D.tells disk.old) texts journal.old
        → HasRead (D.tells disk.new) (texts ++ text.new.items ∷ []) journal.new }
    ensures end { result ≡ Ok false
        → (texts : List (List ℕ)) → HasRead (D.tells disk.old) texts journal.old
        → HoldsTexts (D.tells disk.new) texts journal.new.at }
    ensures damaged { (at : ℕ) → result ≡ Err (LogFault.Damaged at)
        → (texts : List (List ℕ)) → HasRead (D.tells disk.old) texts journal.old
        → IsDamaged (D.tells disk.new) at }
    ensures moves { result ≡ Ok true
        → (journal.old.at < journal.new.at) × (journal.old.at < 2 ^ 62) }
    ensures titled { result ≡ Err LogFault.NotALog → ⊥ }
    ensures still { D.tells disk.new ≡ D.tells disk.old }
    ensures cause { HasLogCause (D.faults disk.old) (D.faults disk.new) result }
{
    let mut is_begun = false;
    'pieces: loop {
        let at = journal.place();
        let record = match journal.next(alloc, disk) {
            Ok(Some(record)) => record,
            Ok(None) => return Ok(false),
            Err(fault) => return Err(told(fault)),
        };
        let Ok(is_piece) = add_piece(text, is_begun, &record) else {
            return Err(LogFault::OutOfMemory);
        };
        if !is_piece {
            return Err(LogFault::Damaged(TITLE_SIZE + at));
        }
        if record.line.as_slice().len() < PIECE_SIZE {
            return Ok(true);
        }
        is_begun = true;
    }
}

// Begins a text with its first piece, or adds a further one to a text that was begun. False where
// the record is neither.
fn add_piece(text: &mut Vec<u8>, is_begun: bool, entry: &Record) -> Result<bool, AllocError>
    ensures piece { result ≡ Ok true
        → with_piece (begun_of is_begun text.old.items) entry.now ≡ Some text.new.items }
    ensures other { result ≡ Ok false
        → with_piece (begun_of is_begun text.old.items) entry.now ≡ None }
{
    let RecordKind::Ask = entry.kind else {
        return Ok(false);
    };
    match entry.session {
        FIRST => text.clear(),
        FURTHER if is_begun => {}
        _ => return Ok(false),
    }
    text.extend_from_slice(entry.line.as_slice())?;
    Ok(true)
}

// The fault of a journal, as that of its file.
fn told(fault: JournalFault) -> LogFault
    requires { (at : ℕ) → fault ≡ JournalFault.Damaged at → at < 2 ^ 62 }
    ensures { result ≡ told fault }
{
    match fault {
        JournalFault::Disk => LogFault::Disk,
        JournalFault::Damaged(at) => LogFault::Damaged(TITLE_SIZE + at),
        JournalFault::OutOfMemory => LogFault::OutOfMemory,
    }
}
