// A database that threads share, and its end.
ghost use Rattle.std.specs.Prelude.{◌≡◌, ℕ, List, [], true, IfErr, IfOk, length};
ghost use mathlib.Core.List.{IsPrefix};
ghost use Rattle.ifdb_io.specs.Causes.{Rose};
ghost use Rattle.ifdb_journal.specs.Reading.{Holds};
ghost use Rattle.ifdb_log.specs.Behind.{behind};
ghost use Rattle.ifdb_turn.specs.Passes.{history, places, shares, BelongsTo, IsOrderly, OwnsAll};
ghost use Rattle.ifdb_turn.specs.Histories.{AllRight};
ghost use Rattle.ifdb_turn.specs.Views.{all_shares};
ghost use Rattle.ifdb_durable.specs.Groups.{IsMember, shares_of};
ghost use Rattle.ifdb_durable.specs.Seats.{IsOpened};
ghost use Rattle.ifdb_durable.specs.Told.{Begins};
ghost use Rattle.ifdb_history.specs.History.{IsRight};
ghost use Rattle.ifdb_restart.specs.Restarted.{IsClosedOver};
ghost use Rattle.ifdb_session.specs.Counts.{counts_of};
ghost use Rattle.ifdb_session.specs.Durable.{count_of};
ghost use Rattle.ifdb_session.specs.Records.{texts_of};
ghost use Rattle.ifdb_session.specs.Starts.{start_of};
ghost use Rattle.ifdb_reopen.specs.Files.{ShowsLog};
ghost use Rattle.ifdb_host.specs.Fronts.{opening_of, HasFrontOf, IsKeptSince, IsToldOf, KnowsOf, LeavesFrom};

use ifdb_disk::Disk;
use ifdb_durable::{Begun, GroupCommit, Member, Queue, Writer};
use ifdb_log::{Behind, Origin, fronts_are_first_texts};
use ifdb_reopen::{Means, Reopened};
use ifdb_restart::{Restarted, first_texts_add_a_front};
use ifdb_session::{Begins, Counts, SharedRoom};
use ifdb_turn::{NoTurnstile, Pass, Turnstile};
use std::alloc::Global;

/// A database that threads share. Each has a pass to the room and a member of the group, split off from these, by which it
/// serves connections as `ifdb_session` says.
pub struct Database<N: Begins, D: Disk> {
    /// What turns are taken at: the room, which records its entries.
    pub hall: Turnstile<SharedRoom<Queue<N, D>>>,
    /// The pass to it.
    pub pass: Pass<SharedRoom<Queue<N, D>>>,
    /// By which replies wait until the disk has what they are answered from.
    pub group: GroupCommit<N, D>,
    /// The member of it.
    pub member: Member<N, D>,
}

/// A database that is closed.
#[derive(Drop)]
pub struct Closed<D> {
    /// What its history comes to.
    pub counts: Counts,
    /// Whether its disk has failed.
    pub has_failed: bool,
    /// Its disk.
    pub disk: D,
}

impl<B: Origin, N: Begins, D: Disk + Drop> Database<N, Behind<B, D>> {
    /// Begins a history over the log that a database was made again from. The pass and the member have all shares, and know of
    /// nothing but this opening. Takes the memory of two turnstiles; where that is refused the disk comes back.
    pub fn begin(alloc: Global, reopened: Reopened<B, D>) -> Result<Database<N, Behind<B, D>>, D>
        requires name { reopened.means.mark.table.shared.table_id ≡ N.table }
        requires holds { Holds (behind reopened.disk.size (D.tells reopened.disk.disk))
            N.before reopened.restarted.journal.at }
        requires stands { IsClosedOver reopened.restarted.room N.first }
        requires mark { IsOpened reopened.means.mark }
        requires empty { (reopened.means.waiting.records ≡ [])
            × (reopened.means.in_hand.records ≡ []) }
        ensures pass { IfOk result (λ it. BelongsTo it.hall it.pass) }
        ensures shares { IfOk result (λ it. shares it.pass ≡ all_shares) }
        ensures history { IfOk result (λ it. history it.pass ≡ []) }
        ensures places { IfOk result (λ it. places it.pass ≡ []) }
        ensures orderly { IfOk result (λ it. IsOrderly (IsRight (start_of N.first)) it.pass) }
        ensures member { IfOk result (λ it. IsMember it.group.writer it.member) }
        ensures member_shares { IfOk result (λ it. shares_of it.member ≡ all_shares) }
        ensures opening { IfOk result (λ it. it.member.receipt ≡ opening_of reopened.disk) }
        ensures refused { IfErr result (λ disk. disk ≡ reopened.disk.disk) }
    {
        let Reopened {
            restarted,
            disk,
            means,
        } = reopened;
        let Restarted { room, journal, .. } = restarted;
        let Means {
            mark,
            waiting,
            in_hand,
        } = means;
        let Begun {
            mark,
            queue,
            writer,
            receipt,
        } = Writer::<N, Behind<B, D>>::begin(mark, journal, disk, waiting, in_hand);
        let (hall, pass) = match Turnstile::new(alloc, SharedRoom::resumed(room, queue)) {
            Ok(made) => made,
            Err(NoTurnstile { object: _ }) => return Err(writer.into_disk().into_disk()),
        };
        match GroupCommit::open(alloc, mark, writer, receipt) {
            Ok((group, member)) => Ok(Database {
                hall,
                pass,
                group,
                member,
            }),
            Err(disk) => {
                drop(hall.close(pass));
                Err(disk.into_disk())
            }
        }
    }

    /// Closes a database whose pass and member have taken in all others, and gives the counts of its history, and its disk.
    ///
    /// At every moment since the opening each image of the disk is the file of the log that there was before, and of a front of
    /// what the history added to it. Where the member knows that so many records are on the disk as some first texts of the
    /// history come to, the member knows of an append since which that front has had all of these. The disk has failed where the
    /// member knows it, and only where the disk's count of faults rose since the opening.
    pub fn close(self) -> Closed<D>
        requires pass { BelongsTo self.hall self.pass }
        requires shares { shares self.pass ≡ all_shares }
        requires member { IsMember self.group.writer self.member }
        requires member_shares { shares_of self.member ≡ all_shares }
        ensures order { AllRight (IsRight (start_of N.first)) (history self.pass) }
        ensures own { OwnsAll self.pass }
        ensures counts { result.counts ≡ counts_of N.first (history self.pass) }
        ensures fronts { (opening : _) (before : List (List ℕ))
            → Begins (opening_of opening) self.member.receipt → opening.size ≡ 16
            → ShowsLog (D.tells opening.disk) before N.first
            → LeavesFrom (D.tells opening.disk) (D.tells result.disk)
            (HasFrontOf before N.first (history self.pass) 0) }
        ensures kept { (opening : _) (before texts : List (List ℕ))
            → Begins (opening_of opening) self.member.receipt → opening.size ≡ 16
            → ShowsLog (D.tells opening.disk) before N.first
            → IsPrefix texts (texts_of N.first (history self.pass))
            → KnowsOf self.member.receipt (count_of texts)
            → (d : _) × IsToldOf d self.member.receipt
            × LeavesFrom (D.tells d.disk.disk) (D.tells result.disk)
            (HasFrontOf before N.first (history self.pass) (length texts)) }
        ensures kept_since { (opening : _) (before texts : List (List ℕ))
            → Begins (opening_of opening) self.member.receipt → opening.size ≡ 16
            → ShowsLog (D.tells opening.disk) before N.first
            → IsPrefix texts (texts_of N.first (history self.pass))
            → KnowsOf self.member.receipt (count_of texts)
            → IsKeptSince before (D.tells result.disk) texts }
        ensures known { self.member.receipt.has_failed ≡ true → result.has_failed ≡ true }
        ensures cause { (opening : _) → Begins (opening_of opening) self.member.receipt
            → result.has_failed ≡ true
            → Rose (D.faults opening.disk) (D.faults result.disk) }
    {
        fronts_are_first_texts();
        first_texts_add_a_front();
        let Database {
            hall,
            pass,
            group,
            member,
        } = self;
        let room = hall.close(pass);
        let counts = room.counts();
        let mut queue = room.into_records();
        let writer = group.close(member, &mut queue);
        drop(queue);
        Closed {
            counts,
            has_failed: writer.has_failed(),
            disk: writer.into_disk().into_disk(),
        }
    }
}
