// A database on a disk, served to the connections of a site.
ghost use Rattle.std.specs.Prelude.{◌≡◌, ◌⊎◌, ◌≤◌, [], All, Contains, IfErr, IfOk, OnErr, OnOk, false, true, vec_len};
ghost use Rattle.ifdb_io.specs.Causes.{Rose};
ghost use Rattle.ifdb_turn.specs.Views.{all_shares};
ghost use Rattle.ifdb_journal.specs.Reading.{Holds};
ghost use Rattle.ifdb_keyed.specs.Keys.{key_bytes};
ghost use Rattle.ifdb_log.specs.Behind.{behind};
ghost use Rattle.ifdb_log.specs.Title.{IsLog, IsSettled};
ghost use Rattle.ifdb_durable.specs.Groups.{IsMember, shares_of};
ghost use Rattle.ifdb_durable.specs.Seats.{IsOpened};
ghost use Rattle.ifdb_durable.specs.Told.{Begins};
ghost use Rattle.ifdb_restart.specs.Restarted.{IsClosedOver};
ghost use Rattle.ifdb_session.specs.Durable.{count_of};
ghost use Rattle.ifdb_session.specs.Passes.{Sees};
ghost use Rattle.ifdb_gates.specs.Work.{IsNewGate};
ghost use Rattle.ifdb_gates.specs.Served.{ServedAll};
ghost use Rattle.ifdb_host.specs.Counting.{counts_text};
ghost use Rattle.ifdb_host.specs.Fronts.{opening_of, KnowsOf};
ghost use Rattle.ifdb_host.specs.Hosted.{HostsSite};
ghost use Rattle.ifdb_host.specs.Serving.{IsWholePass, LeavesFronts, ServesOpened, Tells, VisitedAll, site_end, span_of};

use crate::counts::write_counts;
use crate::end::{HostEnd, end_of};
use crate::{Closed, Database, Plan};
use ifdb_disk::Disk;
use ifdb_durable::{GroupCommit, Member, Queue};
use ifdb_gates::{Unserved, serve_gates};
use ifdb_io::{Failed, Sink, SiteFault};
use ifdb_log::{Behind, Origin, entitle};
use ifdb_loop::{Gate, GateSite};
use ifdb_reopen::{NotReopened, Reopened, reopen};
use ifdb_service::write_numbered;
use ifdb_session::{Begins, Durable, SharedRoom};
use ifdb_turn::{Pass, Turnstile};
use std::alloc::Global;
use std::marker::{Brand, Send};
use std::sync::Wait;
use std::thread::Threads;

/// How many bytes of records may wait for the disk: those of a commit, and of all that are made while the disk syncs. Twice as much is
/// asked for; the system gives what is used of it.
const ROOM: usize = 64 << 20;

/// How a service ended, and its disk.
#[derive(Drop)]
pub struct Hosted<D> {
    /// How it ended.
    pub end: HostEnd,
    /// The disk, as it was left.
    pub disk: D,
}

/// Serves the connections of a site over the database on a disk: makes it again from its log, takes as many gates as the plan has
/// loops, says at which port on a line, and serves each gate by a loop in a thread of its own. Once no connection comes any more and
/// all are over, writes five lines about what was done. A reply is written once the disk has all that it was answered from. A disk
/// that is new gets a database without entries. The gates go back to the site at every end, and the disk comes back.
///
/// A start costs what the entries of the log did, but for the search of their rows. It takes the memory of the rows and of the longest
/// record, and asks for 128 MiB for records on their way to the disk.
pub fn host<R: Threads + Wait + Sync, W: Sink, S: GateSite, D: Disk + Send + Drop>(
    rt: &R,
    alloc: Global,
    output: &mut W,
    site: &mut S,
    plan: Plan,
    disk: D,
) -> Hosted<D>
    requires { (1 ≤ plan.loops) × (plan.loops ≤ 64) }
    ensures { HostsSite S.GateSite S.Gate.Gate S.Gate.Port.Port W.Sink plan
        site.old site.new output.old output.new
        (span_of D.tells D.faults disk result.disk) result.end }
{
    let mut disk = disk;
    match entitle(&mut disk) {
        Ok(()) => host_titled::<Brand, _, _, _, _>(rt, alloc, output, site, plan, disk),
        Err(fault) => Hosted {
            end: end_of(fault),
            disk,
        },
    }
}

// The same of a disk that begins with the title.
fn host_titled<
    B: Origin + Send + Sync,
    R: Threads + Wait + Sync,
    W: Sink,
    S: GateSite,
    D: Disk + Send + Drop,
>(rt: &R, alloc: Global, output: &mut W, site: &mut S, plan: Plan, disk: D) -> Hosted<D>
    requires few { (1 ≤ plan.loops) × (plan.loops ≤ 64) }
    requires begun { B.begun ≡ D.tells disk }
    requires titled { IsSettled IsLog (D.tells disk) }
    ensures hosts { HostsSite S.GateSite S.Gate.Gate S.Gate.Port.Port W.Sink plan
        site.old site.new output.old output.new
        (span_of D.tells D.faults disk result.disk) result.end }
    ensures titled { result.end ≡ HostEnd.NotADatabase → ⊥ }
{
    match reopen::<B, D>(alloc, disk, ROOM) {
        Ok(reopened) => host_reopened::<Brand, _, _, _, _, _>(
            rt, alloc, output, site, plan, reopened,
        ),
        Err(NotReopened { fault, disk }) => Hosted {
            end: end_of(fault),
            disk,
        },
    }
}

// The same of a database that was made again, whose log the type names.
fn host_reopened<
    N: Begins + Send + Sync,
    B: Origin + Send + Sync,
    R: Threads + Wait + Sync,
    W: Sink,
    S: GateSite,
    D: Disk + Send + Drop,
>(
    rt: &R,
    alloc: Global,
    output: &mut W,
    site: &mut S,
    plan: Plan,
    reopened: Reopened<B, D>,
) -> Hosted<D>
    requires few { (1 ≤ plan.loops) × (plan.loops ≤ 64) }
    requires name { reopened.means.mark.table.shared.table_id ≡ N.table }
    requires holds { Holds (behind reopened.disk.size (D.tells reopened.disk.disk))
        N.before reopened.restarted.journal.at }
    requires stands { IsClosedOver reopened.restarted.room N.first }
    requires mark { IsOpened reopened.means.mark }
    requires empty { (reopened.means.waiting.records ≡ [])
        × (reopened.means.in_hand.records ≡ []) }
    ensures serves { ServesOpened S.GateSite S.Gate.Gate S.Gate.Port.Port W.Sink N.first plan
        site.old site.new output.old output.new
        reopened.disk.size (span_of D.tells D.faults reopened.disk.disk result.disk) result.end }
{
    match Database::begin(alloc, reopened) {
        Ok(database) => serve::<N, B, _, _, _, _>(rt, alloc, output, site, plan, database),
        Err(disk) => Hosted {
            end: HostEnd::OutOfMemory,
            disk,
        },
    }
}

// The same of a database that was opened.
fn serve<
    N: Begins + Send + Sync,
    B: Origin + Send + Sync,
    R: Threads + Wait + Sync,
    W: Sink,
    S: GateSite,
    D: Disk + Send + Drop,
>(
    rt: &R,
    alloc: Global,
    output: &mut W,
    site: &mut S,
    plan: Plan,
    database: Database<N, Behind<B, D>>,
) -> Hosted<D>
    requires few { (1 ≤ plan.loops) × (plan.loops ≤ 64) }
    requires pass { IsWholePass N.first database.hall database.pass }
    requires member { IsMember database.group.writer database.member }
    requires member_shares { shares_of database.member ≡ all_shares }
    ensures serves { (opening : _) → database.member.receipt ≡ opening_of opening
        → ServesOpened S.GateSite S.Gate.Gate S.Gate.Port.Port W.Sink N.first plan
        site.old site.new output.old output.new
        opening.size (span_of D.tells D.faults opening.disk result.disk) result.end }
{
    let gates = match site.open(plan.port, plan.loops) {
        Ok(gates) => gates,
        Err(fault) => {
            return Hosted {
                end: site_end(fault),
                disk: database.close().disk,
            };
        }
    };
    if let Err(Failed) = write_numbered(output, b"LISTENING", u64::from(plan.port)) {
        site.close(gates);
        return Hosted {
            end: HostEnd::WriteFault,
            disk: database.close().disk,
        };
    }
    let Visited { ended, closed } = visit(rt, alloc, database, gates, plan);
    match ended {
        Err(Unserved { gates }) => {
            site.close(gates);
            Hosted {
                end: HostEnd::OutOfMemory,
                disk: closed.disk,
            }
        }
        Ok(gates) => {
            let is_done = have_ended(&gates);
            site.close(gates);
            Hosted {
                end: told(output, &closed, is_done),
                disk: closed.disk,
            }
        }
    }
}

// Whether all of these are at their end.
fn have_ended<G: Gate>(gates: &[G]) -> bool
    ensures all { result ≡ true → All (λ gate. G.ended gate ≡ true) gates.now }
    ensures one { result ≡ false → (gate : _) × Contains gates.now gate × (G.ended gate ≡ false) }
{
    for gate in gates {
        if !gate.has_ended() {
            return false;
        }
    }
    true
}

// How a service ends that was served, and what it says of that.
fn told<W: Sink, D: Drop>(output: &mut W, closed: &Closed<D>, is_done: bool) -> HostEnd
    ensures disk { closed.now.has_failed ≡ true → result ≡ HostEnd.DiskFault }
    ensures site { closed.now.has_failed ≡ false → is_done ≡ false → result ≡ HostEnd.SiteFault }
    ensures still { (closed.now.has_failed ≡ true) ⊎ (is_done ≡ false) → output.new ≡ output.old }
    ensures done { closed.now.has_failed ≡ false → is_done ≡ true
        → Tells W.Sink output.old output.new (counts_text closed.now.counts) result }
    ensures later { W.faults output.old ≤ W.faults output.new }
{
    if closed.has_failed {
        return HostEnd::DiskFault;
    }
    if !is_done {
        return HostEnd::SiteFault;
    }
    match write_counts(output, closed.counts) {
        Ok(()) => HostEnd::Done,
        Err(Failed) => HostEnd::WriteFault,
    }
}

// Gates that were visited, or weren't, and the database, which is closed.
struct Visited<G, D> {
    ended: Result<Vec<G>, Unserved<G>>,
    closed: Closed<D>,
}

// Serves each gate by a loop in a thread of its own, and closes the database.
fn visit<
    N: Begins + Send + Sync,
    B: Origin + Send + Sync,
    R: Threads + Wait + Sync,
    G: Gate + Send + Drop,
    D: Disk + Send + Drop,
>(
    rt: &R,
    alloc: Global,
    database: Database<N, Behind<B, D>>,
    gates: Vec<G>,
    plan: Plan,
) -> Visited<G, D>
    requires pass { IsWholePass N.first database.hall database.pass }
    requires member { IsMember database.group.writer database.member }
    requires member_shares { shares_of database.member ≡ all_shares }
    requires few { vec_len gates ≤ 64 }
    requires new { All (IsNewGate G.Gate) gates.items }
    ensures ended { (opening : _) → database.member.receipt ≡ opening_of opening
        → IfOk result.ended (λ back. VisitedAll G.Port.Port (key_bytes plan.key) plan.limit N.first G.Gate
        opening.size (span_of D.tells D.faults opening.disk result.closed.disk)
        (result.closed.has_failed ≡ true) gates.items back.items result.closed.counts) }
    ensures unserved { IfErr result.ended (λ e. e.gates ≡ gates) }
    ensures idle { (opening : _) → database.member.receipt ≡ opening_of opening
        → IfErr result.ended (λ _. LeavesFronts N.first opening.size
        (span_of D.tells D.faults opening.disk result.closed.disk) []) }
    ensures failed { (opening : _) → database.member.receipt ≡ opening_of opening
        → result.closed.has_failed ≡ true
        → Rose (D.faults opening.disk) (D.faults result.closed.disk) }
{
    let Database {
        hall,
        mut pass,
        group,
        member,
    } = database;
    let (ended, member) = keep_serving(rt, alloc, &hall, &mut pass, &group, member, gates, plan);
    let database = Database {
        hall,
        pass,
        group,
        member,
    };
    Visited {
        ended,
        closed: database.close(),
    }
}

// Serves each gate by a loop in a thread of its own, where replies wait by a member of the group, which comes back.
fn keep_serving<
    'g,
    N: Begins + Send + Sync,
    B: Origin + Send + Sync,
    R: Threads + Wait + Sync,
    G: Gate + Send + Drop,
    D: Disk + Send + Drop,
>(
    rt: &R,
    alloc: Global,
    hall: &Turnstile<SharedRoom<Queue<N, Behind<B, D>>>>,
    pass: &mut Pass<SharedRoom<Queue<N, Behind<B, D>>>>,
    group: &'g GroupCommit<N, Behind<B, D>>,
    member: Member<N, Behind<B, D>>,
    gates: Vec<G>,
    plan: Plan,
) -> (Result<Vec<G>, Unserved<G>>, Member<N, Behind<B, D>>)
    requires pass { IsWholePass N.first hall.now pass.old }
    requires member { IsMember group.now.writer member }
    requires member_shares { shares_of member ≡ all_shares }
    requires few { vec_len gates ≤ 64 }
    requires new { All (IsNewGate G.Gate) gates.items }
    ensures sees { Sees N.first hall.now pass.old pass.new }
    ensures member { IsMember group.entry.now.writer result.1 }
    ensures member_shares { shares_of result.1 ≡ all_shares }
    ensures told { Begins member.receipt result.1.receipt }
    ensures unserved { IfErr result.0 (λ e. (e.gates ≡ gates) × (pass.new ≡ pass.old)) }
    ensures ended { IfOk result.0 (λ back. ServedAll G.Port.Port (key_bytes plan.key) plan.limit N.first
        (λ texts. KnowsOf result.1.receipt (count_of texts)) (result.1.receipt.has_failed ≡ true)
        G.Gate pass.new gates.items back.items) }
{
    let mut keeper = Durable { group, member };
    let ended = serve_gates(
        rt,
        alloc,
        hall,
        pass,
        &mut keeper,
        plan.key,
        plan.terms,
        plan.limit,
        gates,
    );
    let Durable { member, .. } = keeper;
    (ended, member)
}

// How a service ends whose site gave no gates.
fn site_end(fault: SiteFault) -> HostEnd
    ensures { result ≡ site_end fault }
{
    match fault {
        SiteFault::Failed => HostEnd::SiteFault,
        SiteFault::OutOfMemory => HostEnd::OutOfMemory,
    }
}
