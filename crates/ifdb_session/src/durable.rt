// A room whose entries are recorded in a queue, and replies that wait until a disk has them.
ghost use Rattle.std.specs.Prelude.{List, []};
ghost use Rattle.ifdb_model.specs.Log.{Entry};

use crate::{Records, Settles, SharedRoom};
use ifdb_disk::Disk;
use ifdb_durable::{Gives, GroupCommit, Mark, Member, Naming, Queue, Writer};
use ifdb_io::Failed;
use ifdb_turn::{Pass, Turnstile};
use std::marker::Brand;
use std::sync::Wait;

/// Which journal it is, and which log it held when it was opened. Contracts alone see it, and one call of a program picks it.
pub trait Begins: Naming {
    /// The log that the journal's records of before stand for.
    ghost first: { List Entry };
}

impl Begins for Brand {
    ghost first = { [] };
}

impl<B: Begins, D> Records for Queue<B, D> {
    ghost use Rattle.ifdb_session.specs.Durable.{count_of, HasRecords, HasRoomFor};

    ghost first = { B.first };

    ghost has = { HasRecords };

    ghost fits = { HasRoomFor };

    ghost count_of = { count_of };

    fn limit(&self) -> Option<usize> {
        Some(self.longest_text().unwrap_or(0))
    }

    fn push(&mut self, text: &[u8]) {
        self.push_text(text);
    }

    fn count(&self) -> u64 {
        Queue::count(self)
    }
}

impl<B: Begins, D: Disk> Gives<B, D> for SharedRoom<Queue<B, D>> {
    fn give(&mut self, mark: &Mark<B, D>, writer: &mut Writer<B, D>) {
        writer.take(mark, &mut self.records);
    }
}

/// By what one thread waits until a disk has what its replies are answered from: the writer that all threads share, and what
/// the thread has of it.
#[derive(Drop)]
pub struct Durable<'a, B: Naming, D: Disk> {
    /// What all threads share.
    pub group: &'a GroupCommit<B, D>,
    /// What the thread has of it: a pass to the writer, and what it was told of the disk.
    pub member: Member<B, D>,
}

impl<'a, B: Begins, D: Disk> Settles<Queue<B, D>> for Durable<'a, B, D> {
    ghost use Rattle.ifdb_session.specs.Durable.{GoesOn, HasShares, IsReady, KnowsFailed, KnowsOnDisk};
    ghost use Rattle.ifdb_session.specs.Knowing.{fewer_on_disk, knows_further, knows_itself, still_failed, still_on_disk};

    ghost ready = { IsReady };

    ghost is_kept = { KnowsOnDisk };

    ghost has_failed = { KnowsFailed };

    ghost goes_on = { GoesOn };

    ghost has_shares = { HasShares };

    fn settle<R: Wait>(
        &mut self,
        rt: &R,
        hall: &Turnstile<SharedRoom<Queue<B, D>>>,
        pass: &mut Pass<SharedRoom<Queue<B, D>>>,
        count: u64,
    ) -> Result<(), Failed> {
        self.group.settle(rt, &mut self.member, hall, pass, count)
    }

    fn split(&mut self) -> Durable<'a, B, D> {
        Durable {
            group: self.group,
            member: self.group.split(&mut self.member),
        }
    }

    fn join(&mut self, other: Durable<'a, B, D>) {
        let Durable { group: _, member } = other;
        self.group.join(&mut self.member, member);
    }

    ghost goes_itself = { knows_itself };

    ghost goes_further = { knows_further };

    ghost stays_kept = { still_on_disk };

    ghost keeps_fewer = { fewer_on_disk };

    ghost stays_failed = { still_failed };
}
