// Records that are appended together.
ghost use Rattle.std.specs.Prelude.{◌≡◌, ◌≤◌, ◌+◌, ◌-◌, ◌++◌, ◌∷◌, [], length, nat_le, IfOk};
ghost use Rattle.ifdb_journal.specs.Records.{IsLawful, Spells, bytes_of};

use crate::RecordKind;
use crate::text::{add, spell};
use ifdb_io::OutOfMemory;
use std::alloc::Global;
use std::marker::Model;

/// Records that a journal appends together: all of them, or none. A record takes 14 bytes and its
/// line.
#[derive(Drop)]
pub struct Batch {
    // The records with open gates, and a closed gate behind them.
    text: Vec<u8>,
    room: usize,
}

impl Model for Batch {
    ghost use Rattle.std.specs.Prelude.{◌<◌, vec_capacity};
    ghost use Rattle.ifdb_journal.specs.Records.{Gathered, Spells, scan};

    ghost Value = { Gathered };

    ghost view = { λ b. record { records = scan 0 b.text.items; room = b.room } };

    ghost invariant = { λ b. Spells b.text.items (scan 0 b.text.items)
        × (b.room < vec_capacity b.text) };
}

impl Batch {
    /// No records, and room for so many bytes of them, which is taken here.
    pub fn new(alloc: Global, room: usize) -> Result<Batch, OutOfMemory>
        ensures { IfOk result (λ batch. batch ≡ record { records = []; room = room }) }
    {
        let Some(size) = room.checked_add(1) else {
            return Err(OutOfMemory);
        };
        let mut text = Vec::with_capacity(alloc, size)?;
        add(&mut text, &[0]);
        Ok(Batch { text, room })
    }

    /// How many bytes of records there is room for still. A record takes 14 bytes and its line.
    pub fn free(&self) -> usize
        ensures { result ≡ self.now.room - bytes_of self.now.records }
    {
        self.room.saturating_sub(self.text.len() - 1)
    }

    /// Whether there is room for a record with this line.
    pub fn fits(&self, line: &[u8]) -> bool
        ensures { result
            ≡ nat_le (bytes_of self.now.records + (14 + length line.now)) self.now.room }
    {
        let free = self.free();
        free >= 14 && line.len() <= free - 14
    }

    /// Adds a record. Takes no memory.
    pub fn push(&mut self, kind: RecordKind, session: u64, line: &[u8])
        requires lawful { IsLawful (record { kind = kind; session = session; line = line.now }) }
        requires room { bytes_of self.old.records + (14 + length line.now) ≤ self.old.room }
        ensures { self.new ≡ record self.old {
          records = self.old.records
              ++ record { kind = kind; session = session; line = line.now } ∷ [];
        } }
    {
        self.text.truncate(self.text.len() - 1);
        add(&mut self.text, &[1]);
        spell(&mut self.text, kind, session, line);
    }

    /// Drops all records.
    pub fn clear(&mut self)
        ensures { self.new ≡ record { records = []; room = self.old.room } }
    {
        self.text.clear();
        add(&mut self.text, &[0]);
    }

    // The records as they stand in a journal.
    pub(crate) fn text(&self) -> &[u8]
        ensures { Spells result.now self.now.records }
    {
        &self.text
    }
}
