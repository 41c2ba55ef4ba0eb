// The service of a site, from its doors to its summary.
ghost use Rattle.std.specs.Prelude.{◌≡◌, ◌≤◌, [], IfOk};
ghost use Rattle.ifdb_io.specs.Causes.{Rose};
ghost use Rattle.ifdb_words.specs.Ranges.{IsService};
ghost use Rattle.ifdb_service.specs.Site.{GivesNone, IsCut, IsDone, IsNewHall, IsUnserved};

use crate::ServiceEnd;
use crate::doors::{Ended, Unserved, serve_doors};
use crate::numbered_line::write_numbered;
use crate::summary::write_summary;
use ifdb_io::{Failed, Sink, Site, SiteFault};
use ifdb_session::{InMemory, OutOfMemory, SharedRoom};
use ifdb_turn::{Pass, Turnstile};
use ifdb_words::Service;
use std::alloc::Global;
use std::sync::Wait;
use std::thread::Threads;

// A room that stands in memory alone.
type MemoryRoom = SharedRoom<InMemory>;

/// Serves the connections of a site: takes as many doors as the words ask for, says at which port on a line, serves each door in
/// a thread of its own over one new room, and writes six lines about what was done. The doors go back to the site at every end.
///
/// `SiteFault` and `WriteFault` come only where that count of faults rose. `OutOfMemory` only before a connection was taken.
pub fn serve<R: Threads + Wait + Sync, W: Sink, S: Site>(
    rt: &R,
    alloc: Global,
    output: &mut W,
    site: &mut S,
    service: Service,
) -> ServiceEnd
    requires { IsService service }
    ensures done { result ≡ ServiceEnd.Done
        → IsDone S.Site S.Door.Door S.Door.Link.Source S.Door.Link.Sink W.Sink service
        site.old site.new output.old output.new }
    ensures write { result ≡ ServiceEnd.WriteFault
        → Rose (W.faults output.old) (W.faults output.new) }
    ensures cut { result ≡ ServiceEnd.WriteFault
        → IsCut S.Site S.Door.Door S.Door.Link.Source S.Door.Link.Sink W.Sink service
        site.old site.new output.old output.new }
    ensures site { result ≡ ServiceEnd.SiteFault → Rose (S.faults site.old) (S.faults site.new) }
    ensures no_doors { result ≡ ServiceEnd.SiteFault → GivesNone S.Site service site.old site.new }
    ensures silent { result ≡ ServiceEnd.SiteFault → output.new ≡ output.old }
    ensures memory { result ≡ ServiceEnd.OutOfMemory
        → IsUnserved S.Site S.Door.Door S.Door.Link.Source S.Door.Link.Sink W.Sink service
        site.old site.new output.old output.new }
    ensures output_later { W.faults output.old ≤ W.faults output.new }
    ensures site_later { S.faults site.old ≤ S.faults site.new }
{
    let doors = match site.doors(service.port, service.workers, service.links) {
        Ok(doors) => doors,
        Err(SiteFault::Failed) => return ServiceEnd::SiteFault,
        Err(SiteFault::OutOfMemory) => return ServiceEnd::OutOfMemory,
    };
    let Ok((hall, mut pass)) = open_hall(alloc) else {
        site.close(doors);
        return ServiceEnd::OutOfMemory;
    };
    if let Err(Failed) = write_numbered(output, b"LISTENING", u64::from(service.port)) {
        hall.close(pass);
        site.close(doors);
        return ServiceEnd::WriteFault;
    }
    let mut keeper = InMemory;
    match serve_doors(
        rt,
        alloc,
        &hall,
        &mut pass,
        &mut keeper,
        doors,
        service.limit,
    ) {
        Err(Unserved { doors }) => {
            hall.close(pass);
            site.close(doors);
            ServiceEnd::OutOfMemory
        }
        Ok(Ended { doors, faults }) => {
            let room = hall.close(pass);
            site.close(doors);
            match write_summary(output, room.counts(), faults) {
                Ok(()) => ServiceEnd::Done,
                Err(Failed) => ServiceEnd::WriteFault,
            }
        }
    }
}

/// A turnstile round a new room, and its first pass.
fn open_hall(alloc: Global) -> Result<(Turnstile<MemoryRoom>, Pass<MemoryRoom>), OutOfMemory>
    ensures { IfOk result (λ t. IsNewHall [] t.0 t.1) }
{
    match Turnstile::new(alloc, SharedRoom::opening(alloc, InMemory)?) {
        Ok(hall) => Ok(hall),
        Err(_) => Err(OutOfMemory),
    }
}
