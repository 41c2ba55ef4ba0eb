//! A tally that threads share, which answers once the disk has what it answers from.
ghost use Rattle.std.specs.Prelude.{◌≡◌, ◌⊎◌, Ok, ◌≤◌, ◌<◌, ◌+◌, [], ◌∷◌, length, IfOk, IfSome, OnErr, true};
ghost use mathlib.Core.List.{IsPrefix};
ghost use Rattle.ifdb_io.specs.Causes.{Rose};
ghost use Rattle.ifdb_journal.specs.Reading.{Holds};
ghost use Rattle.ifdb_turn.specs.Passes.{history};
ghost use Rattle.ifdb_turn.specs.Views.{all_shares};
ghost use Rattle.ifdb_durable.specs.declared.view.Told.{Told};
ghost use Rattle.ifdb_durable.specs.Told.{Begins};
ghost use Rattle.ifdb_durable.specs.Seats.{IsOpened};
ghost use Rattle.ifdb_durable.specs.Writing.{disk_of};
ghost use Rattle.ifdb_durable.specs.Worth.{IsWorth};
ghost use Rattle.test_durable.specs.Tally.{TallyStands, amounts_of, records_of};
ghost use Rattle.test_durable.specs.Shop.{Acknowledges, Came, HasShares, IsIn, KeepsShares};

use crate::tally::{Tally, done_entry};
use ifdb_disk::Disk;
use ifdb_durable::{Begun, GroupCommit, Member, Naming, Opened, Writer, write_reply};
use ifdb_io::{Failed, Sink, write_all};
use ifdb_journal::{Batch, Journal};
use ifdb_turn::{NoTurnstile, Pass, Turnstile};
use std::alloc::Global;
use std::marker::Brand;
use std::sync::Wait;

/// What all threads share.
pub struct Shop<B: Naming, D: Disk> {
    pub tally: Turnstile<Tally<B, D>>,
    pub group: GroupCommit<B, D>,
}

/// What each of them has.
#[derive(Drop)]
pub struct Hands<B: Naming, D: Disk> {
    pub pass: Pass<Tally<B, D>>,
    pub member: Member<B, D>,
}

impl<B: Naming, D: Disk> Shop<B, D> {
    /// An amount comes, and gets the number of records up to its own. `None` where there is no room for it.
    pub fn add<R: Wait>(&self, rt: &R, hands: &mut Hands<B, D>, amount: u64) -> Option<u64>
        requires { IsIn self.now.tally self.now.group.writer hands.old }
        ensures hands { IsIn self.now.tally self.now.group.writer hands.new }
        ensures sees { IsPrefix (history hands.old.pass) (history hands.new.pass) }
        ensures count { IfSome result (λ n. n ≡ length (records_of (history hands.new.pass))) }
        ensures came { IfSome result
            (λ _. Came (history hands.old.pass) (history hands.new.pass) amount) }
        ensures shares { KeepsShares hands.old hands.new }
        ensures receipt { hands.new.member.receipt ≡ hands.old.member.receipt }
    {
        let mut turn = self.tally.enter(rt, &mut hands.pass);
        if !turn.object().add(amount) {
            turn.leave();
            return None;
        }
        let count = turn.object().queue.count();
        done_entry::<B, D, Brand>(turn, amount, false);
        Some(count)
    }

    /// Serves one request: an amount comes, and once its record is on the disk, `OK` is written; true then. Where there is no
    /// room for it that is told instead; false. Where the disk fails nothing is written.
    pub fn serve_add<R: Wait, K: Sink>(
        &self,
        rt: &R,
        hands: &mut Hands<B, D>,
        link: &mut K,
        amount: u64,
    ) -> Result<bool, Failed>
        requires { IsIn self.now.tally self.now.group.writer hands.old }
        ensures hands { IsIn self.now.tally self.now.group.writer hands.new }
        ensures sees { IsPrefix (history hands.old.pass) (history hands.new.pass) }
        ensures shares { KeepsShares hands.old hands.new }
        ensures more { Begins hands.old.member.receipt hands.new.member.receipt }
        ensures acknowledged { result ≡ Ok true → Acknowledges
            (history hands.old.pass) (history hands.new.pass) amount hands.new.member.receipt }
        ensures silent { OnErr result
            ((link.new ≡ link.old) ⊎ Rose (K.faults link.old) (K.faults link.new)) }
    {
        let Some(count) = self.add(rt, hands, amount) else {
            write_all(link, b"ERR 20 OutOfMemory\n")?;
            return Ok(false);
        };
        let Hands { pass, member } = hands;
        self.group.settle(rt, member, &self.tally, pass, count)?;
        write_reply(link, b"OK\n", &member.receipt, count)?;
        Ok(true)
    }

    /// Hands for another thread.
    pub fn split(&self, hands: &mut Hands<B, D>) -> Hands<B, D>
        requires hands { IsIn self.now.tally self.now.group.writer hands.old }
        requires shares { HasShares all_shares hands.old }
        ensures left { IsIn self.now.tally self.now.group.writer hands.new }
        ensures given { IsIn self.now.tally self.now.group.writer result }
        ensures shares { HasShares 4294967295 hands.new }
        ensures given_shares { HasShares 1 result }
    {
        Hands {
            pass: self.tally.split(&mut hands.pass),
            member: self.group.split(&mut hands.member),
        }
    }

    /// Takes another thread's hands back.
    pub fn join(&self, hands: &mut Hands<B, D>, other: Hands<B, D>)
        requires hands { IsIn self.now.tally self.now.group.writer hands.old }
        requires other { IsIn self.now.tally self.now.group.writer other }
        requires shares { HasShares 4294967295 hands.old }
        requires one { HasShares 1 other }
        ensures hands { IsIn self.now.tally self.now.group.writer hands.new }
        ensures shares { HasShares all_shares hands.new }
        ensures receipt { Begins hands.old.member.receipt hands.new.member.receipt }
        ensures other_receipt { Begins other.member.receipt hands.new.member.receipt }
    {
        let Hands { pass, member } = other;
        self.group.join(&mut hands.member, member);
        self.tally.join_pass(&mut hands.pass, pass);
    }
}

impl<B: Naming, D: Disk + Drop> Shop<B, D> {
    /// Opens over a journal that was read to its end. Where memory lacks the disk comes back.
    pub fn open(
        alloc: Global,
        opened: Opened<D>,
        journal: Journal,
        disk: D,
        waiting: Batch,
        batch: Batch,
    ) -> Result<(Shop<B, D>, Hands<B, D>), D>
        requires opened { IsOpened opened }
        requires name { opened.table.shared.table_id ≡ B.table }
        requires holds { Holds (D.tells disk) B.before journal.at }
        requires empty { (waiting.records ≡ []) × (batch.records ≡ []) }
        ensures hands { IfOk result (λ t. IsIn t.0.tally t.0.group.writer t.1) }
        ensures shares { IfOk result (λ t. HasShares all_shares t.1) }
    {
        let Begun {
            mark,
            queue,
            writer,
            receipt,
        } = Writer::<B, D>::begin(opened, journal, disk, waiting, batch);
        let (group, member) = GroupCommit::open(alloc, mark, writer, receipt)?;
        match Turnstile::new(alloc, Tally { sum: 0, queue }) {
            Ok((tally, pass)) => Ok((Shop { tally, group }, Hands { pass, member })),
            Err(NoTurnstile { mut object }) => {
                let writer = group.close(member, &mut object.queue);
                Err(writer.into_disk())
            }
        }
    }

    /// Ends it. The tally stands for the whole history, whose records came in that order. Each receipt that the hands know of
    /// is worth what it says.
    pub fn close(self, hands: Hands<B, D>) -> (Tally<B, D>, Writer<B, D>)
        requires hands { IsIn self.tally self.group.writer hands }
        requires shares { HasShares all_shares hands }
        ensures tally { TallyStands result.0 (history hands.pass) }
        ensures worth { (receipt : Told D) → Begins receipt hands.member.receipt
            → IsWorth D.tells B.before (disk_of result.1) (records_of (history hands.pass))
            receipt.flushes }
    {
        let Shop { tally, group } = self;
        let Hands { pass, member } = hands;
        let mut tally = tally.close(pass);
        let writer = group.close(member, &mut tally.queue);
        (tally, writer)
    }
}
