// How a database is to be served.
ghost use Rattle.std.specs.Prelude.{◌≡◌, ◌≤◌};
ghost use Rattle.ifdb_words.specs.Ranges.{IsLoopService};
ghost use Rattle.ifdb_host.specs.Plans.{loops_in, share_of};

use ifdb_keyed::AdminKey;
use ifdb_loop::Terms;
use ifdb_words::LoopService;

/// The most loops of a service.
const MOST_LOOPS: usize = 64;

/// How a database is to be served.
#[derive(Clone, Copy)]
pub struct Plan {
    /// The port that connections come through.
    pub port: u16,
    /// How many loops serve them, each in a thread of its own: from 1 to 64.
    pub loops: usize,
    /// What each connection of a loop is allowed.
    pub terms: Terms,
    /// How many bytes each connection may give.
    pub limit: usize,
    /// The key by which `admin` is heard.
    pub key: AdminKey,
}

impl Plan {
    /// What the words say, where there are so many processors. Loops share the connections that are served at a time: each has the
    /// same part of them, and one at least.
    pub fn new(service: LoopService, processors: usize, key: AdminKey) -> Plan
        requires { IsLoopService service }
        ensures port { result.port ≡ service.port }
        ensures loops { result.loops ≡ loops_in service processors }
        ensures few { (1 ≤ result.loops) × (result.loops ≤ 64) }
        ensures connections { result.terms.connections ≡ share_of service result.loops }
        ensures shared { 1 ≤ result.terms.connections }
        ensures limit { result.limit ≡ service.limit }
        ensures hello { result.terms.hello ≡ service.patience.hello }
        ensures idle { result.terms.idle ≡ service.patience.idle }
        ensures stall { result.terms.stall ≡ service.patience.stall }
        ensures key { result.key ≡ key }
    {
        let loops = loops_in(&service, processors);
        Plan {
            port: service.port,
            loops,
            terms: Terms {
                connections: service.connections / loops,
                hello: service.patience.hello,
                idle: service.patience.idle,
                stall: service.patience.stall,
            },
            limit: service.limit as usize,
            key,
        }
    }
}

// How many loops the words ask for, or as many as there are processors, and no more than connections.
fn loops_in(service: &LoopService, processors: usize) -> usize
    requires { IsLoopService service.now }
    ensures loops { result ≡ loops_in service.now processors }
    ensures few { (1 ≤ result) × (result ≤ 64) }
{
    let loops = match service.loops {
        Some(loops) => loops,
        None => processors.min(MOST_LOOPS).max(1),
    };
    loops.min(service.connections)
}
