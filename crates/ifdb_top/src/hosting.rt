// The words of `host`.
ghost use Rattle.std.specs.Prelude.{◌≡◌, ◌≤◌, IfOk, OnErr, length, map, string_bytes};
ghost use Rattle.ifdb_words.specs.Ranges.{IsLoopService};
ghost use Rattle.ifdb_top.specs.Compact.{IsReadied};
ghost use Rattle.ifdb_top.specs.Host.{DoesHost, FailsToRead, HostsByKey, HostsDatabase, HostsFile, IsPlanOf, ReadsKey, status_of};

use crate::base::{Status, write_usage};
use crate::more::MoreStatus;
use crate::status::HostStatus;
use ifdb_disk::Shelf;
use ifdb_folder::Folder;
use ifdb_host::{HostEnd, Hosted, Plan, host as host_site};
use ifdb_io::{Failed, Sink};
use ifdb_keyed::{AdminKey, read_key};
use ifdb_loop::GateSite;
use ifdb_swap::{When, compact_in, spare_name};
use ifdb_words::{Hosting, LoopService, host_in};
use std::alloc::{AllocGlobal, Global};
use std::sync::Wait;
use std::thread::{Threads, available_parallelism};

const USAGE: &str =
    "usage: ifdb host --file F --admin-key A --port P [--loops W] [--connections N] [--limit B] [--hello S] [--idle S] [--stall S]\n";

/// Does what the words behind `host` say.
pub(crate) fn host<
    T: AllocGlobal + Threads + Wait + Sync,
    W: Sink,
    S: GateSite,
    F: Folder,
    K: Shelf,
>(
    rt: &T,
    words: &[String],
    output: &mut W,
    site: &mut S,
    folder: &mut F,
    secrets: &mut K,
) -> HostStatus
where
    F::Disk: Send + Drop,
    ensures done { DoesHost W.Sink F.Folder F.Disk.Disk K.Shelf K.Disk.Disk
        S.GateSite S.Gate.Gate S.Gate.Port.Port
        output.old output.new site.old site.new folder.old folder.new secrets.old secrets.new
        (map string_bytes words.now) result }
    ensures output_later { W.faults output.old ≤ W.faults output.new }
    ensures site_later { S.faults site.old ≤ S.faults site.new }
    ensures folder_later { F.faults folder.old ≤ F.faults folder.new }
    ensures secrets_later { K.faults secrets.old ≤ K.faults secrets.new }
{
    match host_in(rt.alloc(), words) {
        Ok(Some(hosting)) => host_in_file(rt, output, site, folder, secrets, &hosting),
        Ok(None) => HostStatus::More(MoreStatus::Base(write_usage(output, USAGE))),
        Err(_) => HostStatus::More(MoreStatus::Base(Status::OutOfMemory)),
    }
}

/// Serves the database in a file by the key for `admin` that another file holds. That file is opened first, and closed.
fn host_in_file<T: AllocGlobal + Threads + Wait + Sync, W: Sink, S: GateSite, F: Folder, K: Shelf>(
    rt: &T,
    output: &mut W,
    site: &mut S,
    folder: &mut F,
    secrets: &mut K,
    hosting: &Hosting,
) -> HostStatus
where
    F::Disk: Send + Drop,
    requires { IsLoopService hosting.now.service }
    ensures hosted { HostsByKey W.Sink F.Folder F.Disk.Disk K.Shelf K.Disk.Disk
        S.GateSite S.Gate.Gate S.Gate.Port.Port
        output.old output.new site.old site.new folder.old folder.new secrets.old secrets.new
        hosting.now result }
    ensures output_later { W.faults output.old ≤ W.faults output.new }
    ensures site_later { S.faults site.old ≤ S.faults site.new }
    ensures folder_later { F.faults folder.old ≤ F.faults folder.new }
    ensures secrets_later { K.faults secrets.old ≤ K.faults secrets.new }
{
    match key_in(secrets, hosting.key_file.as_str()) {
        Ok(Some(key)) => host_by_key(rt, output, site, folder, hosting, key),
        Ok(None) => HostStatus::NoKey,
        Err(_) => HostStatus::DiskFault,
    }
}

/// The key for `admin` in a file of a shelf, which is opened once and closed.
fn key_in<K: Shelf>(secrets: &mut K, name: &str) -> Result<Option<AdminKey>, Failed>
    requires { (1 ≤ length name.now) × (length name.now ≤ 255) }
    ensures read { IfOk result (ReadsKey K.Shelf K.Disk.Disk name.now secrets.old secrets.new) }
    ensures failed { OnErr result (FailsToRead K.Shelf K.Disk.Disk name.now secrets.old secrets.new) }
    ensures later { K.faults secrets.old ≤ K.faults secrets.new }
{
    let mut disk = secrets.open(name)?;
    let key = read_key(&mut disk);
    secrets.close(disk);
    key
}

/// Serves the database in a file by a key for `admin`. It is compacted before, where that is worth it.
fn host_by_key<T: AllocGlobal + Threads + Wait + Sync, W: Sink, S: GateSite, F: Folder>(
    rt: &T,
    output: &mut W,
    site: &mut S,
    folder: &mut F,
    hosting: &Hosting,
    key: AdminKey,
) -> HostStatus
where
    F::Disk: Send + Drop,
    requires { IsLoopService hosting.now.service }
    ensures hosted { HostsDatabase W.Sink F.Folder F.Disk.Disk
        S.GateSite S.Gate.Gate S.Gate.Port.Port hosting.now key
        output.old output.new site.old site.new folder.old folder.new result }
    ensures output_later { W.faults output.old ≤ W.faults output.new }
    ensures site_later { S.faults site.old ≤ S.faults site.new }
    ensures folder_later { F.faults folder.old ≤ F.faults folder.new }
{
    let plan = plan_of(rt, hosting.service, key);
    let name = hosting.file.as_str();
    make_ready(rt.alloc(), folder, name);
    host_file(rt, output, site, folder, name, plan)
}

/// How a database is to be served on this machine, as the words say.
fn plan_of<T: Threads>(rt: &T, service: LoopService, key: AdminKey) -> Plan
    requires { IsLoopService service }
    ensures plan { IsPlanOf service key result }
    ensures few { (1 ≤ result.loops) × (result.loops ≤ 64) }
{
    Plan::new(service, processors(rt), key)
}

/// How many processors the machine has; one, where the system doesn't tell.
fn processors<T: Threads>(rt: &T) -> usize {
    match available_parallelism(rt) {
        Ok(count) => count.get(),
        Err(_) => 1,
    }
}

/// Compacts the database in a file where that is worth it. Where this fails, it is served as it is.
fn make_ready<F: Folder>(alloc: Global, folder: &mut F, name: &str)
where
    F::Disk: Drop,
    requires { (1 ≤ length name.now) × (length name.now ≤ 255) }
    ensures readied { IsReadied F.Folder F.Disk.Disk name.now folder.old folder.new }
    ensures later { F.faults folder.old ≤ F.faults folder.new }
{
    if let Ok(Some(spare)) = spare_name(alloc, name) {
        let _ = compact_in(alloc, folder, name, spare.as_str(), When::IfWorth);
    }
}

/// Serves the database in a file, which is had once, and given back at every end.
fn host_file<T: AllocGlobal + Threads + Wait + Sync, W: Sink, S: GateSite, F: Folder>(
    rt: &T,
    output: &mut W,
    site: &mut S,
    folder: &mut F,
    name: &str,
    plan: Plan,
) -> HostStatus
where
    F::Disk: Send + Drop,
    requires name { (1 ≤ length name.now) × (length name.now ≤ 255) }
    requires few { (1 ≤ plan.loops) × (plan.loops ≤ 64) }
    ensures hosted { HostsFile W.Sink F.Folder F.Disk.Disk
        S.GateSite S.Gate.Gate S.Gate.Port.Port
        name.now plan output.old output.new site.old site.new folder.old folder.new result }
    ensures output_later { W.faults output.old ≤ W.faults output.new }
    ensures site_later { S.faults site.old ≤ S.faults site.new }
    ensures folder_later { F.faults folder.old ≤ F.faults folder.new }
{
    let Ok(disk) = folder.take(name) else {
        return HostStatus::DiskFault;
    };
    let Hosted { end, disk } = host_site(rt, rt.alloc(), output, site, plan, disk);
    folder.give(name, disk);
    status_of(end)
}

/// The status of an end.
fn status_of(end: HostEnd) -> HostStatus
    ensures { result ≡ status_of end }
{
    match end {
        HostEnd::Done => HostStatus::More(MoreStatus::Base(Status::Done)),
        HostEnd::WriteFault => HostStatus::More(MoreStatus::Base(Status::WriteFault)),
        HostEnd::OutOfMemory => HostStatus::More(MoreStatus::Base(Status::OutOfMemory)),
        HostEnd::SiteFault => HostStatus::More(MoreStatus::Base(Status::SiteFault)),
        HostEnd::DiskFault => HostStatus::DiskFault,
        HostEnd::Damaged(at) => HostStatus::More(MoreStatus::Damaged(at)),
        HostEnd::NotADatabase => HostStatus::NotADatabase,
    }
}
