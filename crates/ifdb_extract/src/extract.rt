// What a log comes to.
ghost use Rattle.std.specs.Prelude.{◌≡◌, ◌^◌, ◌-◌, ◌++◌, [], Err, IfOk, IsSome, None, OnErr, OnOk, length, min};
ghost use Rattle.ifdb_row.specs.Content.{after};
ghost use Rattle.std.specs.List.{flat_map};
ghost use Rattle.ifdb_journal.specs.Reading.{IsReady};
ghost use Rattle.ifdb_log.specs.Pieces.{pieces, size_of};
ghost use Rattle.ifdb_redo.specs.Reading.{record_of};
ghost use Rattle.ifdb_extract.specs.Texts.{with_text};
ghost use Rattle.ifdb_extract.specs.Causes.{HasWriteCause};
ghost use Rattle.ifdb_extract.specs.Extracts.{HoldsExtract, IsSizeOf, log_size};
ghost use Rattle.ifdb_extract.specs.Walks.{PutsRows};
ghost use Rattle.ifdb_extract.specs.Writing.{GoesOn, Puts};

use crate::WriteFault;
use crate::row_texts::RowTexts;
use crate::writer::TextWriter;
use ifdb_disk::Disk;
use ifdb_journal::{Bytes, held_images};
use ifdb_log::{PIECE_SIZE, texts_are_read_again};
use ifdb_redo::{ReadFault, RedoRecord, read_record};
use ifdb_row::{OutOfMemory, Writes};
use ifdb_store::Content;
use std::alloc::Global;
use std::marker::Model;

// What a piece of a text takes in a journal beside its bytes.
const HEAD_SIZE: u64 = 14;

/// What a log comes to: its public changes in their order, as they were recorded, and its rows.
#[derive(Drop)]
pub struct Extract {
    changes: Vec<Bytes>,
    rows: Content,
}

impl Model for Extract {
    ghost use Rattle.ifdb_extract.specs.Texts.{Extracted};

    ghost Value = { Extracted };

    ghost view = { λ x. record { changes = x.changes.items; rows = x.rows } };
}

impl Extract {
    /// What no entry comes to.
    pub(crate) fn new(alloc: Global) -> Result<Extract, OutOfMemory>
        ensures { IfOk result (λ x. x ≡ record { changes = []; rows = [] }) }
    {
        Ok(Extract {
            changes: Vec::new(alloc),
            rows: Content::new(alloc)?,
        })
    }

    /// Takes in the text of one entry more.
    ///
    /// # Errors
    /// `Broken` exactly where the text is no record; `OutOfMemory`. No call is of use after them.
    #[tactic(auto, using(crate::proofs::Taking::took_change, crate::proofs::Taking::took_commit))]
    pub(crate) fn take(&mut self, alloc: Global, text: &[u8]) -> Result<(), ReadFault>
        ensures taken { OnOk result (self.new ≡ with_text self.old text.now) }
        ensures read { OnOk result (IsSome (record_of text.now)) }
        ensures broken { result ≡ Err ReadFault.Broken → record_of text.now ≡ None }
    {
        match read_record(alloc, text)? {
            RedoRecord::Change { .. } => self.changes.push(Bytes::copy(alloc, text)?)?,
            RedoRecord::Commit(writes) => put(alloc, &mut self.rows, &writes)?,
        }
        Ok(())
    }

    /// How many public changes it has.
    pub fn changes(&self) -> u64
        ensures { result ≡ length self.now.changes }
    {
        self.changes.len() as u64
    }

    /// How many rows it has, up to 2^64 - 1. In time the number of their pages.
    pub fn rows(&self) -> u64
        ensures { result ≡ min (length self.now.rows) (2 ^ 64 - 1) }
    {
        match self.rows.count() {
            Some(count) => count,
            None => u64::MAX,
        }
    }

    /// How many bytes the records of a log of this take, which `write` writes: 2^64 - 1 where they take more. The title and the
    /// last gate come on top. Takes as long as the texts take to be made, and memory for the longest of them.
    pub fn size(&self, alloc: Global) -> Result<u64, OutOfMemory>
        ensures { IfOk result (λ n. IsSizeOf n self.now) }
    {
        size_in_journal(alloc, &self.changes, &self.rows)
    }

    /// Writes a log of this on a disk, which lies behind a title: the public changes, and then all rows in the order of their
    /// slots, some at a time. Whatever the disk held is no record from then on. Takes 2 MiB, and memory for the longest record.
    ///
    /// # Errors
    /// `Disk` where the disk failed; `OutOfMemory`. Of what the disk holds then nothing is said.
    pub fn write<D: Disk>(&self, alloc: Global, disk: &mut D) -> Result<(), WriteFault>
        ensures written { OnOk result (HoldsExtract (D.tells disk.new) self.now) }
        ensures later { GoesOn (D.tells disk.old) (D.tells disk.new) }
        ensures cause { HasWriteCause (D.faults disk.old) (D.faults disk.new) result }
    {
        held_images();
        texts_are_read_again();
        let mut writer = TextWriter::begin(alloc, disk)?;
        put_changes(&mut writer, disk, &self.changes)?;
        put_rows(alloc, &mut writer, disk, &self.rows)?;
        writer.finish(disk)
    }
}

// Makes writes to the rows, in place where that can be.
fn put(alloc: Global, rows: &mut Content, writes: &Writes) -> Result<(), OutOfMemory>
    ensures done { OnOk result (rows.new ≡ after rows.old writes.now) }
{
    if !rows.put(alloc, writes) {
        *rows = rows.after(alloc, writes)?;
    }
    Ok(())
}

// Puts the texts of public changes behind those that were put before.
fn put_changes<D: Disk>(
    writer: &mut TextWriter,
    disk: &mut D,
    changes: &[Bytes],
) -> Result<(), WriteFault>
    requires ready { IsReady (D.tells disk.old) writer.old.at }
    ensures put { OnOk result (Puts (flat_map pieces changes.now)
        (D.tells disk.old) writer.old (D.tells disk.new) writer.new) }
    ensures ready { OnOk result (IsReady (D.tells disk.new) writer.new.at) }
    ensures later { GoesOn (D.tells disk.old) (D.tells disk.new) }
    ensures cause { HasWriteCause (D.faults disk.old) (D.faults disk.new) result }
{
    for change in changes {
        writer.put(disk, change.as_slice())?;
    }
    Ok(())
}

// Puts the texts of commits of all rows behind those that were put before.
fn put_rows<D: Disk>(
    alloc: Global,
    writer: &mut TextWriter,
    disk: &mut D,
    rows: &Content,
) -> Result<(), WriteFault>
    requires ready { IsReady (D.tells disk.old) writer.old.at }
    ensures put { OnOk result
        (PutsRows rows.now (D.tells disk.old) writer.old (D.tells disk.new) writer.new) }
    ensures ready { OnOk result (IsReady (D.tells disk.new) writer.new.at) }
    ensures later { GoesOn (D.tells disk.old) (D.tells disk.new) }
    ensures cause { HasWriteCause (D.faults disk.old) (D.faults disk.new) result }
{
    let mut texts = RowTexts::of(rows);
    'runs: while let Some(text) = texts.next(alloc)? {
        writer.put(disk, &text)?;
    }
    Ok(())
}

// How many bytes of a journal the texts of public changes take, and those of commits of all rows behind them.
fn size_in_journal(alloc: Global, changes: &[Bytes], rows: &Content) -> Result<u64, OutOfMemory>
    ensures { IfOk result (λ n. IsSizeOf n (record { changes = changes.now; rows = rows.now })) }
{
    let mut size = changes_size(changes);
    let mut texts = RowTexts::of(rows);
    'runs: while let Some(text) = texts.next(alloc)? {
        size = size.saturating_add(text_size(&text));
    }
    Ok(size)
}

// How many bytes of a journal the texts of public changes take: 2^64 - 1 where they take more.
fn changes_size(changes: &[Bytes]) -> u64
    ensures { result ≡ min (log_size changes.now) (2 ^ 64 - 1) }
{
    let mut size = 0u64;
    for change in changes {
        size = size.saturating_add(text_size(change.as_slice()));
    }
    size
}

// How many bytes of a journal the pieces of a text take.
fn text_size(text: &[u8]) -> u64
    ensures { result ≡ size_of (length text.now) }
{
    let size = text.len() as u64;
    size + HEAD_SIZE * (size / PIECE_SIZE as u64 + 1)
}
