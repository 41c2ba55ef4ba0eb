// The site whose doors stand at a port of this machine.
ghost use Rattle.std.specs.Prelude.{◌≡◌, ◌≤◌, None, IfOk, All, vec_len};
ghost use Rattle.ifdb_io.specs.Doors.{Stays, Becomes};
ghost use Rattle.ifdb_net.specs.declared.door.TcpDoor.{TcpDoor};

use crate::TcpDoor;
use ifdb_io::{Asked, Site, SiteFault};
use std::alloc::{AllocError, Global};
use std::net::{Ipv4Addr, Net, TcpListener, TcpStream};
use std::sync::Arc;

/// A site whose doors stand at a port of this machine alone: it listens on 127.0.0.1, which no
/// other machine reaches. The doors of one call share a listener, which is closed with the last of
/// them. At port 0 the system picks a port that is free.
///
/// `doors` fails, and the count of the site's faults rises, where the port is taken or may not be
/// listened at. `OutOfMemory` is a want of memory for the doors.
#[derive(Drop)]
pub struct TcpSite<'a, R> {
    rt: &'a R,
    alloc: Global,
    failed: u64,
    asked: Option<Asked>,
}

impl<'a, R> TcpSite<'a, R> {
    /// A site that wasn't asked for anything yet.
    pub fn new(rt: &'a R, alloc: Global) -> Self
        ensures asked { result.asked ≡ None }
        ensures no_fault { result.failed ≡ 0 }
    {
        TcpSite {
            rt,
            alloc,
            failed: 0,
            asked: None,
        }
    }
}

impl<'a, R: Net<Listener = TcpListener, Stream = TcpStream>> Site for TcpSite<'a, R> {
    ghost use Rattle.std.specs.Prelude.{None};

    type Door = TcpDoor;

    ghost faults = { λ site. site.failed };

    ghost asked = { λ site. site.asked };

    ghost waiting = { λ _. None };

    ghost back = { λ _. None };

    fn doors(&mut self, port: u16, count: usize, links: u64) -> Result<Vec<TcpDoor>, SiteFault> {
        self.asked = Some(Asked { port, count, links });
        match TcpListener::bind(self.rt, (Ipv4Addr::LOCALHOST, port)) {
            Ok(listener) => match doors_at(self.alloc, listener, count, links) {
                Ok(doors) => Ok(doors),
                Err(_) => Err(SiteFault::OutOfMemory),
            },
            Err(_) => {
                self.failed = self.failed.saturating_add(1);
                Err(SiteFault::Failed)
            }
        }
    }

    fn close(&mut self, doors: Vec<TcpDoor>)
        ensures asked { self.new.asked ≡ self.old.asked }
        ensures waiting { Stays {A = TcpDoor} None None }
        ensures back { Becomes {A = TcpDoor} None None doors.items }
        ensures faults { self.new.failed ≡ self.old.failed }
    {
        let _ = doors;
    }
}

// So many doors that share a listener.
fn doors_at(
    alloc: Global,
    listener: TcpListener,
    count: usize,
    links: u64,
) -> Result<Vec<TcpDoor>, AllocError>
    ensures count { IfOk result (λ doors. vec_len doors ≡ count) }
    ensures most { IfOk result (λ doors. All (λ door. door.most ≤ links) doors.items) }
    ensures none_out { IfOk result (λ doors. All (λ door. door.out ≡ 0) doors.items) }
{
    let shared = Arc::new(alloc, listener)?;
    let mut doors = Vec::with_capacity(alloc, count)?;
    for _ in 0..count {
        doors.push(TcpDoor::new(Arc::try_clone(&shared)?, links))?;
    }
    Ok(doors)
}
