//! The records that wait to be appended.
ghost use Rattle.std.specs.Prelude.{◌≡◌, ◌≤◌, ◌<◌, ◌+◌, ◌^◌, ◌++◌, ◌∷◌, [], ℕ, length, IfNone, IfOk, IfSome, true};
ghost use Rattle.ifdb_journal.specs.Records.{IsLawful, bytes_of};
ghost use Rattle.ifdb_log.specs.Pieces.{pieces, size_of};
ghost use Rattle.ifdb_durable.specs.Queues.{all_of, free_of};

use crate::naming::Naming;
use crate::view::MarkSeat;
use ifdb_journal::{Batch, RecordKind};
use ifdb_log::Pieces;
use std::marker::{Model, PhantomData};

/// The records that wait to be appended, behind those that were taken so far. It lies with what all turns are taken at, so
/// that the order of records is that of the history.
#[derive(Drop)]
pub struct Queue<B: Naming, D> {
    pub(crate) batch: Batch,
    // How many records came in all.
    pub(crate) count: u64,
    pub(crate) seat: MarkSeat<D>,
    pub(crate) naming: PhantomData<B>,
}

impl<B: Naming, D> Model for Queue<B, D> {
    ghost use Rattle.std.specs.Prelude.{◌≡◌, ◌+◌, length};
    ghost use Rattle.ifdb_durable.specs.Queues.{Queued};
    ghost use Rattle.ifdb_durable.specs.Seats.{IsQueueSeat};

    ghost Value = { Queued };

    ghost view = { λ q. record {
      taken = q.seat.me.0.taken;
      waiting = q.batch.records;
      room = q.batch.room;
    } };

    ghost invariant = { λ q. IsQueueSeat B.table q.seat.me.0.taken q.seat
        × (q.count ≡ length q.seat.me.0.taken + length q.batch.records) };
}

impl<B: Naming, D> Queue<B, D> {
    /// Whether there is room for a record with this line. There is none behind 2^64 - 1 records.
    pub fn fits(&self, line: &[u8]) -> bool
        ensures { result ≡ true
            → (bytes_of self.now.waiting + (14 + length line.now) ≤ self.now.room)
            × (length (all_of self.now) + 1 < 2 ^ 64) }
    {
        self.count < u64::MAX && self.batch.fits(line)
    }

    /// Adds a record behind the others. Takes no memory.
    pub fn push(&mut self, kind: RecordKind, session: u64, line: &[u8])
        requires lawful { IsLawful (record { kind = kind; session = session; line = line.now }) }
        requires room { bytes_of self.old.waiting + (14 + length line.now) ≤ self.old.room }
        requires count { length (all_of self.old) + 1 < 2 ^ 64 }
        ensures { self.new ≡ record self.old {
          waiting = self.old.waiting
              ++ record { kind = kind; session = session; line = line.now } ∷ [];
        } }
    {
        self.batch.push(kind, session, line);
        self.count += 1;
    }

    /// How many bytes of records there is room for still, of which each takes 14 bytes and its line. Behind 2^64 - 1 records there is
    /// none, and never more than records can be counted.
    pub fn free(&self) -> usize
        ensures { result ≡ free_of self.now }
    {
        let countable = (u64::MAX - self.count) as usize;
        self.batch.free().min(countable)
    }

    /// The length of the longest text whose pieces there is room for. `None` where there is none for those of an empty one.
    pub fn longest_text(&self) -> Option<usize>
        ensures fits { IfSome result (λ most. (n : ℕ) → n ≤ most → size_of n ≤ free_of self.now) }
        ensures most { IfSome result (λ most. free_of self.now < size_of (most + 1)) }
        ensures none { IfNone result (free_of self.now < size_of 0) }
    {
        ifdb_log::longest_text(self.free())
    }

    /// Adds the pieces of a text behind the other records. Takes no memory.
    pub fn push_text(&mut self, text: &[u8])
        requires { size_of (length text.now) ≤ free_of self.old }
        ensures { self.new ≡ record self.old {
          waiting = self.old.waiting ++ pieces text.now;
        } }
    {
        for piece in Pieces::of(text) {
            self.push(RecordKind::Ask, piece.session, piece.line);
        }
    }

    /// How many records came in all.
    pub fn count(&self) -> u64
        ensures { result ≡ length (all_of self.now) }
    {
        self.count
    }
}
