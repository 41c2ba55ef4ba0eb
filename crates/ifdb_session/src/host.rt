// What serves the connections of one worker.

use crate::{Ending, Records, Settles, SharedRoom, serve_link};
use ifdb_io::Link;
use ifdb_pool::Host;
use ifdb_turn::{Pass, Turnstile};
use std::alloc::Global;
use std::marker::PhantomData;
use std::sync::Wait;

/// Serves connections with a pass of its own, one session each, and counts those that ended otherwise than by BYE or at
/// the end of their input, up to 2^64 - 1. It is over once the disk has failed: nobody would be answered any more.
#[derive(Drop)]
pub struct SessionHost<'a, R, K, Q: Records, S> {
    /// What waits for turns.
    pub rt: &'a R,
    /// Where the readers and the replies of connections are taken from.
    pub alloc: Global,
    /// The room that all connections share.
    pub hall: &'a Turnstile<SharedRoom<Q>>,
    /// The host's own pass.
    pub pass: Pass<SharedRoom<Q>>,
    /// By what it waits until that is kept which its replies are answered from.
    pub keeper: S,
    /// The most bytes that a connection may send.
    pub limit: u64,
    /// How many connections ended so.
    pub faults: u64,
    /// The kind of connection.
    pub link: PhantomData<K>,
}

impl<'a, R: Wait, K: Link, Q: Records, S: Settles<Q>> Host for SessionHost<'a, R, K, Q, S> {
    ghost use Rattle.ifdb_session.specs.Hosts.{IsHostReady, Serves};

    type Link = K;

    ghost ready = { IsHostReady Q.Records S.Settles };

    ghost serves = { Serves K.Source K.Sink Q.Records S.Settles };

    ghost over = { λ host. S.Settles.has_failed host.keeper };

    fn serve(&mut self, link: &mut K) -> bool {
        let faults = self.faults;
        let ending = serve_link(
            self.rt,
            self.alloc,
            self.hall,
            &mut self.pass,
            &mut self.keeper,
            link,
            self.limit,
        );
        if ending.is_orderly() {
            return true;
        }
        self.faults = faults.saturating_add(1);
        ending != Ending::Unkept
    }
}
