// Sites in memory.
ghost use Rattle.std.specs.Prelude.{◌≡◌, ◌≤◌, true, [], None, All};
ghost use Rattle.std.specs.Vec.Iter.{into_iter_len};

use crate::{Asked, Link, MemoryDoor, Site, SiteFault};
use std::alloc::Global;
use std::marker::Send;
use std::mem;

/// A site that gives the doors that it was made of, in order, and keeps those that are given back.
/// It fails at the calls that it was told, and where it has fewer doors than it is asked for, or
/// one among them that may give more links or has one out.
#[derive(Drop)]
pub struct MemorySite<K> {
    waiting: Vec<MemoryDoor<K>>,
    back: Vec<MemoryDoor<K>>,
    asked: Option<Asked>,
    fails: Vec<u64>,
    calls: u64,
    faults: u64,
}

impl<K: Drop> MemorySite<K> {
    /// A site with these doors. The calls of `doors` whose numbers, from 0, are in `fails` fail.
    pub fn new(alloc: Global, doors: Vec<MemoryDoor<K>>, fails: Vec<u64>) -> MemorySite<K>
        ensures waiting { result.waiting.items ≡ doors.items }
        ensures back { result.back.items ≡ [] }
        ensures asked { result.asked ≡ None }
        ensures fails { result.fails.items ≡ fails.items }
        ensures no_call { result.calls ≡ 0 }
        ensures no_fault { result.faults ≡ 0 }
    {
        MemorySite {
            waiting: doors,
            back: Vec::new(alloc),
            asked: None,
            fails,
            calls: 0,
            faults: 0,
        }
    }

    /// The doors that the last call of `close` gave back, in order.
    pub fn back(&self) -> &[MemoryDoor<K>]
        ensures { result.now ≡ self.now.back.items }
    {
        &self.back
    }
}

// Whether each of these doors may still give at most so many links, and has none out.
fn are_within<K: Drop>(doors: &[MemoryDoor<K>], links: u64) -> bool
    ensures most { result ≡ true → All (λ door. into_iter_len door.coming ≤ links) doors.now }
    ensures none_out { result ≡ true → All (λ door. door.out ≡ 0) doors.now }
{
    for door in doors {
        if !door.is_within(links) {
            return false;
        }
    }
    true
}

impl<K: Link + Send + Drop> Site for MemorySite<K> {
    ghost use Rattle.std.specs.Prelude.{Some};

    type Door = MemoryDoor<K>;

    ghost faults = { λ site. site.faults };

    ghost asked = { λ site. site.asked };

    ghost waiting = { λ site. Some site.waiting.items };

    ghost back = { λ site. Some site.back.items };

    fn doors(
        &mut self,
        port: u16,
        count: usize,
        links: u64,
    ) -> Result<Vec<MemoryDoor<K>>, SiteFault> {
        self.asked = Some(Asked { port, count, links });
        let call = self.calls;
        self.calls = call.saturating_add(1);
        let fails = self.fails.contains(&call);
        if fails || count > self.waiting.len() || !are_within(&self.waiting[..count], links) {
            self.faults = self.faults.saturating_add(1);
            return Err(SiteFault::Failed);
        }
        match self.waiting.split_off(count) {
            Ok(rest) => Ok(mem::replace(&mut self.waiting, rest)),
            Err(_) => Err(SiteFault::OutOfMemory),
        }
    }

    fn close(&mut self, doors: Vec<MemoryDoor<K>>)
        ensures asked { self.new.asked ≡ self.old.asked }
        ensures waiting { self.new.waiting.items ≡ self.old.waiting.items }
        ensures back { self.new.back.items ≡ doors.items }
        ensures faults { self.new.faults ≡ self.old.faults }
    {
        self.back = doors;
    }
}
