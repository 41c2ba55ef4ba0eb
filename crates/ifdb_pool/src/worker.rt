// One worker, and what it does in its thread.
ghost use Rattle.std.specs.Prelude.{◌≡◌, ◌<◌, ◌+◌, false};
ghost use Rattle.ifdb_io.specs.Doors.{Stays, GainsLast};
ghost use Rattle.ifdb_pool.specs.Work.{IsReady, Worked};

use crate::Host;
use ifdb_io::{Door, Failed};

/// A door, and the host that serves the connections that come through it.
#[derive(Drop)]
pub struct Worker<D, H> {
    /// What the connections come through.
    pub door: D,
    /// What serves them.
    pub host: H,
    /// How many connections were served, in all runs.
    pub links: u64,
    /// Whether the last run ended before the door's end: because the door failed, or the host was over.
    pub failed: bool,
}

/// Serves each connection that the door gives and hands it back, up to the end of the door or its first failure, or until the host is
/// over; then it doesn't ask the door again. Takes no memory of its own.
pub fn work<D: Door, H: Host<Link = D::Link>>(worker: &mut Worker<D, H>)
    requires { IsReady D.Door H.Host worker.old }
    ensures { Worked D.Door H.Host worker.old worker.new }
{
    worker.failed = true;
    loop {
        match worker.door.next() {
            Ok(Some(link)) => {
                let goes_on = serve_and_hand_back(&mut worker.door, &mut worker.host, link);
                worker.links += 1;
                if !goes_on {
                    return;
                }
            }
            Ok(None) => {
                worker.failed = false;
                return;
            }
            Err(Failed) => return,
        }
    }
}

// Serves a connection that is out, and hands it back to its door.
fn serve_and_hand_back<D: Door, H: Host<Link = D::Link>>(
    door: &mut D,
    host: &mut H,
    mut link: D::Link,
) -> bool
    requires ready { H.ready host.old }
    requires out { 0 < D.out door.old }
    ensures ready { H.ready host.new }
    ensures visit { (went : D.Link) ×
        H.serves host.old link host.new went × GainsLast (D.back door.old) (D.back door.new) went }
    ensures coming { Stays (D.coming door.old) (D.coming door.new) }
    ensures most { D.most door.new ≡ D.most door.old }
    ensures out { D.out door.new + 1 ≡ D.out door.old }
    ensures end { D.ended door.new ≡ D.ended door.old }
    ensures faults { D.faults door.new ≡ D.faults door.old }
    ensures over { result ≡ false → H.over host.new }
{
    let goes_on = host.serve(&mut link);
    door.done(link);
    goes_on
}
