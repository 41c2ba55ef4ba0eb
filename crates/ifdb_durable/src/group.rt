//! Group commit: many wait for the disk, and one of them appends for all.
ghost use Rattle.std.specs.Prelude.{◌≡◌, ◌≤◌, ◌<◌, ◌+◌, [], ◌∷◌, length, IfErr, IfOk, OnErr, OnOk, true, false};
ghost use mathlib.Core.List.{IsPrefix};
ghost use Rattle.ifdb_io.specs.Causes.{Rose};
ghost use Rattle.ifdb_turn.specs.Passes.{history, places, shares, BelongsTo, IsOrderly, NoForeignRoots};
ghost use Rattle.ifdb_turn.specs.Views.{all_shares};
ghost use Rattle.ifdb_durable.specs.declared.view.Flush.{Flush};
ghost use Rattle.ifdb_durable.specs.declared.view.Told.{Told};
ghost use Rattle.ifdb_durable.specs.Told.{Begins, kept_by};
ghost use Rattle.ifdb_durable.specs.Queues.{all_of};
ghost use Rattle.ifdb_durable.specs.Writing.{taken, told, disk_of, IsIdle, Writes};
ghost use Rattle.ifdb_durable.specs.Appends.{IsFirst, Stands};
ghost use Rattle.ifdb_durable.specs.Worth.{IsWorth};
ghost use Rattle.ifdb_durable.specs.Groups.{IsMember, shares_of};

use crate::gives::{Gives, flush};
use crate::mark::{Mark, Receipt};
use crate::naming::Naming;
use crate::queue::Queue;
use crate::writer::Writer;
use ifdb_disk::Disk;
use ifdb_io::Failed;
use ifdb_turn::{NoTurnstile, Pass, Turnstile};
use std::alloc::Global;
use std::sync::Wait;
use std::sync::atomic::{AtomicU64, Ordering};

// Nobody appends.
const FREE: u64 = 0;

// Somebody does.
const BUSY: u64 = 1;

/// The writer that many share, and the mark. Whoever finds nobody appending appends all that waits: there is no thread of its
/// own for it.
pub struct GroupCommit<B: Naming, D: Disk> {
    /// What threads take turns at to append.
    pub writer: Turnstile<Writer<B, D>>,
    pub(crate) mark: Mark<B, D>,
    // Whether somebody appends, and how many appends have ended. Contracts know nothing of these two words: the turns of the
    // writer keep the order, and these only end sleeps.
    state: AtomicU64,
    ends: AtomicU64,
}

/// What each of those has who share a writer.
#[derive(Drop)]
pub struct Member<B: Naming, D: Disk> {
    /// The pass to the writer.
    pub pass: Pass<Writer<B, D>>,
    /// What it was told of the disk.
    pub receipt: Receipt<B, D>,
}

impl<B: Naming, D: Disk> GroupCommit<B, D> {
    /// Waits until so many records are on the disk, and the receipt knows it. Where they are there already it costs one load.
    /// Whoever finds nobody appending appends all that waits, by two syncs.
    ///
    /// # Errors
    /// `Failed` where the disk has failed, which the receipt then knows.
    pub fn settle<R: Wait, O: Gives<B, D>>(
        &self,
        rt: &R,
        member: &mut Member<B, D>,
        room: &Turnstile<O>,
        pass: &mut Pass<O>,
        count: u64,
    ) -> Result<(), Failed>
        requires member { IsMember self.now.writer member.old }
        requires room { BelongsTo room.now pass.old }
        ensures member { IsMember self.now.writer member.new }
        ensures room { BelongsTo room.now pass.new }
        ensures sees { IsPrefix (history pass.old) (history pass.new) }
        ensures kept { OnOk result (count ≤ length (kept_by member.new.receipt)) }
        ensures failed { OnErr result (member.new.receipt.has_failed ≡ true) }
        ensures more { Begins member.old.receipt member.new.receipt }
        ensures shares { shares pass.new ≡ shares pass.old }
        ensures orderly { IsOrderly O.right pass.old → IsOrderly O.right pass.new }
        ensures places { places pass.new ≡ places pass.old }
        ensures away { NoForeignRoots O.root pass.old pass.new }
        ensures member_shares { shares_of member.new ≡ shares_of member.old }
    {
        for _ in rt.forever() {
            let ends = self.ends.load(Ordering::SeqCst);
            if self.mark.look(&mut member.receipt) >= count {
                return Ok(());
            }
            if self.mark.has_failed(&mut member.receipt) {
                return Err(Failed);
            }
            let found = self
                .state
                .compare_exchange(FREE, BUSY, Ordering::SeqCst, Ordering::SeqCst);
            match found {
                Ok(_) => self.lead(rt, member, room, pass),
                // An end in between has changed the count, so that no wake is lost.
                Err(_) => self.ends.park(rt, (ends % (1 << 32)) as u32),
            }
        }
        unreachable!()
    }

    // Appends all that waits, and wakes all who wait for it. What came of it the mark says.
    fn lead<R: Wait, O: Gives<B, D>>(
        &self,
        rt: &R,
        member: &mut Member<B, D>,
        room: &Turnstile<O>,
        pass: &mut Pass<O>,
    )
        requires member { IsMember self.now.writer member.old }
        requires room { BelongsTo room.now pass.old }
        ensures member { IsMember self.now.writer member.new }
        ensures room { BelongsTo room.now pass.new }
        ensures sees { IsPrefix (history pass.old) (history pass.new) }
        ensures receipt { member.new.receipt ≡ member.old.receipt }
        ensures shares { shares pass.new ≡ shares pass.old }
        ensures orderly { IsOrderly O.right pass.old → IsOrderly O.right pass.new }
        ensures places { places pass.new ≡ places pass.old }
        ensures away { NoForeignRoots O.root pass.old pass.new }
        ensures member_shares { shares_of member.new ≡ shares_of member.old }
    {
        let flushed = flush(rt, &self.mark, &self.writer, &mut member.pass, room, pass);
        drop(flushed);
        self.state.store(FREE, Ordering::SeqCst);
        self.ends.fetch_add(1, Ordering::SeqCst);
        self.ends.wake_all();
    }

    /// A member more, which was told as much.
    pub fn split(&self, member: &mut Member<B, D>) -> Member<B, D>
        requires member { IsMember self.now.writer member.old }
        requires shares { 1 < shares_of member.old }
        ensures left { IsMember self.now.writer member.new }
        ensures given { IsMember self.now.writer result }
        ensures receipt { member.new.receipt ≡ member.old.receipt }
        ensures given_receipt { result.receipt ≡ member.old.receipt }
        ensures left_shares { shares_of member.new + 1 ≡ shares_of member.old }
        ensures given_share { shares_of result ≡ 1 }
    {
        Member {
            pass: self.writer.split(&mut member.pass),
            receipt: self.mark.again(&mut member.receipt),
        }
    }

    /// Takes another member in. The receipt then begins with both.
    pub fn join(&self, member: &mut Member<B, D>, other: Member<B, D>)
        requires member { IsMember self.now.writer member.old }
        requires other { IsMember self.now.writer other }
        ensures member { IsMember self.now.writer member.new }
        ensures receipt { Begins member.old.receipt member.new.receipt }
        ensures other_receipt { Begins other.receipt member.new.receipt }
        ensures shares { shares_of member.new ≡ shares_of member.old + shares_of other }
    {
        let Member { pass, receipt } = other;
        self.mark.join(&mut member.receipt, receipt);
        self.writer.join_pass(&mut member.pass, pass);
    }
}

impl<B: Naming, D: Disk + Drop> GroupCommit<B, D> {
    /// A writer that has begun, to be shared, and the member that has all shares. Takes the memory of a turnstile; where that is
    /// refused the disk comes back.
    pub fn open(
        alloc: Global,
        mark: Mark<B, D>,
        writer: Writer<B, D>,
        receipt: Receipt<B, D>,
    ) -> Result<(GroupCommit<B, D>, Member<B, D>), D>
        requires writes { Writes D.tells B.before B.table writer }
        requires idle { IsIdle writer }
        requires opening { (told writer).flushes
            ≡ record { disk = disk_of writer; kept = [] } ∷ [] }
        ensures member { IfOk result (λ t. IsMember t.0.writer t.1) }
        ensures receipt { IfOk result (λ t. t.1.receipt ≡ receipt) }
        ensures shares { IfOk result (λ t. shares_of t.1 ≡ all_shares) }
        ensures refused { IfErr result (λ disk. disk ≡ disk_of writer) }
    {
        match Turnstile::new(alloc, writer) {
            Ok((writer, pass)) => Ok((
                GroupCommit {
                    writer,
                    mark,
                    state: AtomicU64::new(FREE),
                    ends: AtomicU64::new(0),
                },
                Member { pass, receipt },
            )),
            Err(NoTurnstile { object }) => Err(object.into_disk()),
        }
    }

    /// Ends it, over the queue that nobody adds to any more: what was taken out of it is what the writer took. Of each receipt
    /// that the member has taken in: at every moment since the last append of it was answered, a crash leaves the records of
    /// before, and a front of all that came, which has all that the append kept. Where it says that the disk has failed, the
    /// disk's count of faults rose since the opening.
    pub fn close(self, member: Member<B, D>, queue: &mut Queue<B, D>) -> Writer<B, D>
        requires member { IsMember self.writer member }
        requires shares { shares_of member ≡ all_shares }
        ensures stands { Stands D.tells B.before D.faults B.table result }
        ensures queue { queue.new ≡ queue.old }
        ensures taken { queue.new.taken ≡ taken result }
        ensures heard { Begins member.receipt (told result) }
        ensures worth { (receipt : Told D) → Begins receipt member.receipt
            → IsWorth D.tells B.before (disk_of result) (all_of queue.new) receipt.flushes }
        ensures cause { member.receipt.has_failed ≡ true
            → (opening : Flush D) → IsFirst opening (told result).flushes
            → Rose (D.faults opening.disk) (D.faults (disk_of result)) }
    {
        let GroupCommit {
            writer,
            mark,
            state: _,
            ends: _,
        } = self;
        let Member { pass, receipt } = member;
        let mut writer = writer.close(pass);
        writer.end(&mark, queue, receipt);
        writer
    }
}
