// What answers the lines of one loop.
ghost use Rattle.std.specs.Prelude.{◌≡◌, ◌≤◌, true, IfSome};
ghost use Rattle.ifdb_turn.specs.Passes.{BelongsTo, IsOrderly};
ghost use Rattle.ifdb_history.specs.History.{IsRight};
ghost use Rattle.ifdb_session.specs.Starts.{start_of};

use crate::Place;
use ifdb_io::{Failed, OutOfMemory};
use ifdb_loop::Service;
use ifdb_session::{Outcome, Records, Seat, Settles, SharedRoom, ask, leave, open};
use ifdb_turn::{Pass, Turnstile};
use ifdb_wire::{Fault, Out, Reply};
use std::alloc::Global;
use std::sync::Wait;

/// Answers the lines of one loop from the room that all loops share, by a pass of the loop's own, which is that of all its sessions.
#[derive(Drop)]
pub struct Desk<'a, R, Q: Records, S> {
    // What waits for turns.
    rt: &'a R,
    // Where lines take their memory from.
    alloc: Global,
    /// The room.
    pub hall: &'a Turnstile<SharedRoom<Q>>,
    /// The loop's pass.
    pub pass: Pass<SharedRoom<Q>>,
    /// By what the loop waits until that is kept which its replies are answered from.
    pub keeper: S,
    /// How many bytes a connection may give.
    pub limit: usize,
    /// The reply to the line that was asked last.
    pub out: Out,
    // How many records of the journal all replies so far rest on.
    mark: u64,
    // Whether these are known to be kept.
    is_settled: bool,
}

impl<'a, R: Wait, Q: Records, S: Settles<Q>> Desk<'a, R, Q, S> {
    ghost use Rattle.ifdb_desk.specs.Desks.{IsReady};

    /// A desk that has answered nothing yet, and takes so many bytes of a connection. Its replies are put into `out`.
    pub fn new(
        rt: &'a R,
        alloc: Global,
        hall: &'a Turnstile<SharedRoom<Q>>,
        pass: Pass<SharedRoom<Q>>,
        keeper: S,
        out: Out,
        limit: usize,
    ) -> Desk<'a, R, Q, S>
        requires pass { BelongsTo hall.now pass }
        requires orderly { IsOrderly (IsRight (start_of Q.first)) pass }
        requires keeper { S.ready keeper }
        ensures ready { IsReady Q.Records S.Settles result }
        ensures hall { result.hall.now ≡ hall.now }
        ensures pass { result.pass ≡ pass }
        ensures keeper { result.keeper ≡ keeper }
        ensures limit { result.limit ≡ limit }
    {
        Desk {
            rt,
            alloc,
            hall,
            pass,
            keeper,
            limit,
            out,
            mark: 0,
            is_settled: false,
        }
    }
}

impl<'a, R, Q: Records, S> Desk<'a, R, Q, S> {
    // Its replies rest on so many records too, if one took a turn.
    fn rest_on(&mut self, count: Option<u64>)
        ensures same { self.new
            ≡ record self.old { mark = self.new.mark; is_settled = self.new.is_settled } }
        ensures more { self.old.mark ≤ self.new.mark }
        ensures count { IfSome count (λ n. n ≤ self.new.mark) }
        ensures settled { self.new.is_settled ≡ true
            → (self.old.is_settled ≡ true) × (self.new.mark ≡ self.old.mark) }
    {
        let Some(count) = count else {
            return;
        };
        if count > self.mark {
            self.mark = count;
            self.is_settled = false;
        }
    }
}

impl<'a, R: Wait, Q: Records, S: Settles<Q>> Service for Desk<'a, R, Q, S> {
    ghost use Rattle.ifdb_session.specs.Links.{long_text};
    ghost use Rattle.ifdb_desk.specs.Desks.{GoesOn, IsReady, KnowsAllKept, Says, SeesOver};
    ghost use Rattle.ifdb_desk.specs.Laws.{goes_itself, goes_further, keeps_all, stays_over};
    ghost use Rattle.ifdb_desk.specs.Opened.{opened_in};
    ghost use Rattle.ifdb_turn.specs.Passes.{history, places};

    type Seat = Place;

    ghost ready = { IsReady Q.Records S.Settles };

    ghost goes_on = { GoesOn Q.Records S.Settles };

    ghost number = { λ place. place.seat.number };

    ghost says = { Says Q.Records S.Settles };

    ghost is_over = { SeesOver Q.Records S.Settles };

    ghost opened = { λ desk. opened_in (history desk.pass) (places desk.pass) };

    ghost is_kept = { KnowsAllKept Q.Records S.Settles };

    ghost has_failed = { λ desk. S.Settles.has_failed desk.keeper };

    ghost text = { λ desk. desk.out.text };

    ghost long_text = { long_text };

    ghost limit = { λ desk. desk.limit };

    fn open(&mut self) -> Result<Place, OutOfMemory> {
        let number = open(self.rt, self.hall, &mut self.pass)?;
        Ok(Place {
            seat: Seat::new(self.alloc, number),
            is_open: true,
        })
    }

    fn ask(&mut self, place: &mut Place, line: &[u8]) -> Result<bool, OutOfMemory> {
        let Outcome { is_open, count } = ask(
            self.rt,
            self.hall,
            &mut self.pass,
            &mut place.seat,
            line,
            &mut self.out,
        );
        place.is_open = is_open;
        self.rest_on(count);
        Ok(is_open)
    }

    fn refuse_long(&mut self) {
        self.out.speak_for(None);
        self.out.put(&Reply::Refused(Fault::TooLong));
    }

    fn text(&self) -> &[u8] {
        self.out.bytes()
    }

    fn limit(&self) -> usize {
        self.limit
    }

    fn settle(&mut self) -> Result<(), Failed> {
        if self.is_settled {
            return Ok(());
        }
        self.keeper
            .settle(self.rt, self.hall, &mut self.pass, self.mark)?;
        self.is_settled = true;
        Ok(())
    }

    fn leave(&mut self, place: Place) {
        let Place { seat, is_open } = place;
        if !is_open {
            return;
        }
        leave(self.rt, self.hall, &mut self.pass, seat);
    }

    ghost keeps_all = { keeps_all _ _ S.keeps_fewer };

    ghost goes_itself = { goes_itself _ _ S.goes_itself };

    ghost goes_further = { goes_further _ _ S.goes_further };

    ghost keeps_limit = { λ s t goes. goes.limit };

    ghost stays_over = { stays_over _ _ S.stays_kept };

    ghost stays_failed = { λ s t goes failed. S.stays_failed s.keeper t.keeper goes.keeper failed };
}
