//! The journal and its disk, in the hands of one thread at a time.
ghost use Rattle.std.specs.Prelude.{◌≡◌, ◌≤◌, ◌++◌, ◌∷◌, [], false, length, Err, OnErr, OnOk};
ghost use Rattle.ifdb_io.specs.Causes.{HasCause};
ghost use Rattle.ifdb_journal.specs.Reading.{Holds};
ghost use Rattle.ifdb_durable.specs.Told.{Begins};
ghost use Rattle.ifdb_durable.specs.Queues.{all_of};
ghost use Rattle.ifdb_durable.specs.Seats.{IsOpened};
ghost use Rattle.ifdb_durable.specs.Writing.{taken, told, in_hand, disk_of, HasSeat, Writes, IsIdle, HasWritten, HasFailed, LeavesKept};

use crate::kinds::{Advance, Fail, Hear, Look, Meet, Part, Read, Take};
use crate::mark::{FAILED, KEPT, Mark, Opened, Receipt};
use crate::naming::Naming;
use crate::queue::Queue;
use crate::view::{Hand, MarkSeat};
use ifdb_disk::Disk;
use ifdb_io::Failed;
use ifdb_journal::{Batch, Journal};
use ifdb_turn::Object;
use std::marker::PhantomData;
use std::mem;

/// A journal that was read to its end, its disk, and the records in hand, which are to be appended next.
#[derive(Drop)]
pub struct Writer<B: Naming, D> {
    pub(crate) journal: Journal,
    pub(crate) hand: Hand<D>,
    // How many records were taken, and how many of them are on the disk.
    pub(crate) count: u64,
    pub(crate) written: u64,
    // Whether the disk has failed.
    pub(crate) has_failed: bool,
    pub(crate) seat: MarkSeat<D>,
    pub(crate) naming: PhantomData<B>,
}

impl<B: Naming, D: Disk> Object for Writer<B, D> {
    ghost use Rattle.ifdb_durable.specs.Appends.{Stands, nothing_right, no_root};

    type Entry = u64;

    ghost stands = { λ writer _. Stands D.tells B.before D.faults B.table writer };

    ghost right = { nothing_right };

    ghost root = { no_root };
}

/// All that stands round a journal.
pub struct Begun<B: Naming, D> {
    /// The mark, at no records.
    pub mark: Mark<B, D>,
    /// The queue, with nothing in it.
    pub queue: Queue<B, D>,
    /// The writer, with nothing in hand.
    pub writer: Writer<B, D>,
    /// A receipt for the opening.
    pub receipt: Receipt<B, D>,
}

impl<B: Naming, D: Disk> Writer<B, D> {
    /// Begins behind the records that the journal has. The two batches are empty: one for the queue, and one in hand. Takes no
    /// memory.
    pub fn begin(
        opened: Opened<D>,
        journal: Journal,
        disk: D,
        waiting: Batch,
        batch: Batch,
    ) -> Begun<B, D>
        requires opened { IsOpened opened }
        requires name { opened.table.shared.table_id ≡ B.table }
        requires holds { Holds (D.tells disk) B.before journal.at }
        requires empty { (waiting.records ≡ []) × (batch.records ≡ []) }
        ensures queue { result.queue
            ≡ record { taken = []; waiting = []; room = waiting.room } }
        ensures writes { Writes D.tells B.before B.table result.writer }
        ensures idle { IsIdle result.writer }
        ensures nothing { taken result.writer ≡ [] }
        ensures opening { told result.writer ≡ record {
          flushes = record { disk = disk; kept = [] } ∷ [];
          has_failed = false;
        } }
        ensures disk { disk_of result.writer ≡ disk }
        ensures receipt { result.receipt ≡ told result.writer }
        ensures room { result.writer.hand.batch.room ≡ batch.room }
    {
        let (mark, mut seat) = opened.named::<B>();
        let lent = mark.table.shared.split_seat::<Part>(&mut seat);
        let hand = Hand { disk, batch };
        mark.table
            .shared
            .compare_exchange_with::<Advance>(&mut seat, KEPT, 0, 0, &hand);
        let receipt = mark.first(&mut seat);
        let queue = Queue {
            batch: waiting,
            count: 0,
            seat: lent,
            naming: PhantomData,
        };
        let writer = Writer {
            journal,
            hand,
            count: 0,
            written: 0,
            has_failed: false,
            seat,
            naming: PhantomData,
        };
        Begun {
            mark,
            queue,
            writer,
            receipt,
        }
    }

    /// Takes all records that wait into the hand. Takes no memory, and touches no disk.
    pub fn take(&mut self, mark: &Mark<B, D>, queue: &mut Queue<B, D>)
        requires seat { HasSeat B.table self.old }
        requires idle { IsIdle self.old }
        ensures seat { HasSeat B.table self.new }
        ensures behind { queue.old.taken ≡ taken self.old }
        ensures taken { taken self.new ≡ all_of queue.old }
        ensures told { told self.new ≡ told self.old }
        ensures hand { in_hand self.new ≡ queue.old.waiting }
        ensures disk { disk_of self.new ≡ disk_of self.old }
        ensures place { self.new.journal ≡ self.old.journal }
        ensures works { self.new.has_failed ≡ self.old.has_failed }
        ensures queue { queue.new ≡ record {
          taken = all_of queue.old;
          waiting = [];
          room = self.old.hand.batch.room;
        } }
        ensures room { self.new.hand.batch.room ≡ queue.old.room }
    {
        let shared = &mark.table.shared;
        let spare = shared.split_seat::<Read>(&mut self.seat);
        let lent = mem::replace(&mut queue.seat, spare);
        shared.join_seat::<Meet>(&mut self.seat, lent);
        mem::swap(&mut self.hand.batch, &mut queue.batch);
        shared.compare_exchange_with::<Take>(&mut self.seat, KEPT, 0, 0, &self.hand);
        self.count = queue.count;
        queue.seat = shared.split_seat::<Part>(&mut self.seat);
    }

    // At the end, over what all knew: what a receipt was told begins what the writer was told, and the queue and the writer knew
    // the same records. Changes nothing.
    pub(crate) fn end(&mut self, mark: &Mark<B, D>, queue: &mut Queue<B, D>, receipt: Receipt<B, D>)
        requires seat { HasSeat B.table self.old }
        ensures heard { Begins receipt (told self.new) }
        ensures agrees { queue.new.taken ≡ taken self.new }
        ensures queue { queue.new ≡ queue.old }
        ensures taken { taken self.new ≡ taken self.old }
        ensures told { told self.new ≡ told self.old }
        ensures hand { self.new.hand ≡ self.old.hand }
        ensures place { self.new.journal ≡ self.old.journal }
        ensures works { self.new.has_failed ≡ self.old.has_failed }
        ensures seat { HasSeat B.table self.new }
    {
        let shared = &mark.table.shared;
        shared.join_seat::<Hear>(&mut self.seat, receipt.into_seat());
        shared.load::<Look>(&mut self.seat, KEPT);
        let spare = shared.split_seat::<Read>(&mut self.seat);
        let lent = mem::replace(&mut queue.seat, spare);
        shared.join_seat::<Meet>(&mut self.seat, lent);
        shared.load::<Look>(&mut self.seat, KEPT);
        queue.seat = shared.split_seat::<Part>(&mut self.seat);
    }

    /// Whether the disk has failed.
    pub fn has_failed(&self) -> bool
        ensures { result ≡ self.now.has_failed }
    {
        self.has_failed
    }

    /// The disk, as it is.
    pub fn into_disk(self) -> D
        ensures { result ≡ disk_of self }
    {
        let Writer { hand, .. } = self;
        let Hand { disk, .. } = hand;
        disk
    }

    /// Appends the records in hand, all or none, by two syncs, and moves the mark behind them. Without any it touches no disk.
    ///
    /// # Errors
    /// `Failed` where the disk failed, which the mark then says. No call is of use after it.
    pub fn write(&mut self, mark: &Mark<B, D>) -> Result<(), Failed>
        requires { Writes D.tells B.before B.table self.old }
        ensures written { OnOk result (HasWritten self.old self.new) }
        ensures writes { OnOk result (Writes D.tells B.before B.table self.new) }
        ensures moments { LeavesKept D.tells B.before self.old self.new }
        ensures seat { OnErr result (HasSeat B.table self.new) }
        ensures lost { OnErr result (HasFailed self.old self.new) }
        ensures room { self.new.hand.batch.room ≡ self.old.hand.batch.room }
        ensures cause { HasCause
            (D.faults (disk_of self.old)) (D.faults (disk_of self.new)) result }
    {
        let shared = &mark.table.shared;
        let hand = &mut self.hand;
        let Ok(()) = self.journal.append_batch(&mut hand.disk, &hand.batch) else {
            shared.store::<Fail>(&mut self.seat, FAILED, 1);
            self.has_failed = true;
            return Err(Failed);
        };
        hand.batch.clear();
        shared.compare_exchange_with::<Advance>(
            &mut self.seat,
            KEPT,
            self.written,
            self.count,
            &self.hand,
        );
        self.written = self.count;
        Ok(())
    }
}
