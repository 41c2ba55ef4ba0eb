// Doors in memory.
ghost use Rattle.std.specs.Prelude.{◌≡◌, ◌≤◌, ◌+◌, true, false, [], vec_len, vec_capacity, IfOk};
ghost use Rattle.std.specs.Vec.Iter.{into_iter_items, into_iter_len};

use crate::{Door, Failed, Link, OutOfMemory};
use std::alloc::Global;
use std::marker::Send;
use std::vec::IntoIter;

/// A door that gives the links that it was made of, in order, and keeps those that are given back.
/// It fails at the calls that it was told.
#[derive(Drop)]
pub struct MemoryDoor<K> {
    coming: IntoIter<K, Global>,
    back: Vec<K>,
    out: u64,
    ended: bool,
    fails: Vec<u64>,
    calls: u64,
    faults: u64,
    ghost none_left: { ended ≡ true → into_iter_len coming ≡ 0 },
    ghost room: { vec_len back + out + into_iter_len coming ≤ vec_capacity back },
}

impl<K: Drop> MemoryDoor<K> {
    /// A door that gives these links. The calls of `next` before its end whose numbers, from 0, are
    /// in `fails` fail. The room for the links that come back is taken here.
    pub fn new(alloc: Global, links: Vec<K>, fails: Vec<u64>) -> Result<MemoryDoor<K>, OutOfMemory>
        ensures coming { IfOk result (λ door. into_iter_items door.coming ≡ links.items) }
        ensures most { IfOk result (λ door. into_iter_len door.coming ≡ vec_len links) }
        ensures back { IfOk result (λ door. door.back.items ≡ []) }
        ensures none_out { IfOk result (λ door. door.out ≡ 0) }
        ensures open { IfOk result (λ door. door.ended ≡ false) }
        ensures fails { IfOk result (λ door. door.fails.items ≡ fails.items) }
        ensures no_call { IfOk result (λ door. door.calls ≡ 0) }
        ensures no_fault { IfOk result (λ door. door.faults ≡ 0) }
    {
        Ok(MemoryDoor {
            back: Vec::with_capacity(alloc, links.len())?,
            coming: links.into_iter(),
            out: 0,
            ended: false,
            fails,
            calls: 0,
            faults: 0,
        })
    }

    /// The links that were given back, in order.
    pub fn back(&self) -> &[K]
        ensures { result.now ≡ self.now.back.items }
    {
        &self.back
    }

    /// How many links are still to come.
    pub fn left(&self) -> usize
        ensures { result ≡ into_iter_len self.now.coming }
    {
        self.coming.len()
    }

    // Whether the door may still give at most so many links, and has none out.
    pub(crate) fn is_within(&self, links: u64) -> bool
        ensures { result ≡ true → (into_iter_len self.now.coming ≤ links) × (self.now.out ≡ 0) }
    {
        self.out == 0 && self.left() as u64 <= links
    }
}

impl<K: Link + Send + Drop> Door for MemoryDoor<K> {
    ghost use Rattle.std.specs.Prelude.{Some};
    ghost use Rattle.std.specs.Vec.Iter.{into_iter_items, into_iter_len};

    type Link = K;

    ghost most = { λ door. into_iter_len door.coming };

    ghost out = { λ door. door.out };

    ghost ended = { λ door. door.ended };

    ghost faults = { λ door. door.faults };

    ghost coming = { λ door. Some (into_iter_items door.coming) };

    ghost back = { λ door. Some door.back.items };

    fn next(&mut self) -> Result<Option<K>, Failed> {
        if self.ended {
            return Ok(None);
        }
        let call = self.calls;
        self.calls = call.saturating_add(1);
        if self.fails.contains(&call) {
            self.faults = self.faults.saturating_add(1);
            return Err(Failed);
        }
        let link = self.coming.next();
        match link {
            Some(_) => self.out += 1,
            None => self.ended = true,
        }
        Ok(link)
    }

    fn done(&mut self, link: K) {
        self.out -= 1;
        let _ = self.back.push(link);
    }
}
