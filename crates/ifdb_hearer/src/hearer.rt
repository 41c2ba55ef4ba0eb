// What answers lines by another service.
ghost use Rattle.std.specs.Prelude.{◌≡◌};
ghost use Rattle.ifdb_io.specs.Lines.{IsLine};
ghost use Rattle.ifdb_keyed.specs.Marks.{line_for};

use ifdb_io::{Failed, OutOfMemory};
use ifdb_keyed::{AdminKey, Heard, heard_in};
use ifdb_loop::Service;
use std::alloc::Global;

/// Answers lines as another service does, which is asked what a server with this key for admin hears of them: a HELLO of admin is
/// heard with admin's own key where it says this one, and with none where it says another. Each other line is asked as it was said.
///
/// A line that may be a HELLO takes memory to be read. Where there is none, nothing is asked.
#[derive(Drop)]
pub struct Hearer<S> {
    /// The service that is asked.
    pub service: S,
    /// The server's key for admin.
    pub key: AdminKey,
    alloc: Global,
}

impl<S> Hearer<S> {
    /// Takes no memory.
    pub fn new(alloc: Global, key: AdminKey, service: S) -> Hearer<S>
        ensures service { result.service ≡ service }
        ensures key { result.key ≡ key }
    {
        Hearer {
            service,
            key,
            alloc,
        }
    }
}

impl<S: Service> Service for Hearer<S> {
    ghost use Rattle.ifdb_hearer.specs.Hearers.{GoesOn, heard_dialogue};
    ghost use Rattle.ifdb_hearer.specs.Laws.{goes_further, goes_itself, stays_over};
    ghost use Rattle.ifdb_keyed.specs.Keys.{key_bytes};

    type Seat = S::Seat;

    ghost ready = { λ hearer. S.ready hearer.service };

    ghost goes_on = { GoesOn S.goes_on };

    ghost number = { S.number };

    ghost says = { λ hearer seat d. S.says hearer.service seat (heard_dialogue (key_bytes hearer.key) d) };

    ghost is_over = { λ hearer n d. S.is_over hearer.service n (heard_dialogue (key_bytes hearer.key) d) };

    ghost opened = { λ hearer. S.opened hearer.service };

    ghost is_kept = { λ hearer. S.is_kept hearer.service };

    ghost has_failed = { λ hearer. S.has_failed hearer.service };

    ghost text = { λ hearer. S.text hearer.service };

    ghost long_text = { S.long_text };

    ghost limit = { λ hearer. S.limit hearer.service };

    fn open(&mut self) -> Result<S::Seat, OutOfMemory> {
        self.service.open()
    }

    fn ask(&mut self, seat: &mut S::Seat, line: &[u8]) -> Result<bool, OutOfMemory> {
        let heard = heard_in(self.alloc, &self.key, line)?;
        self.service.ask(seat, text_of(heard, line))
    }

    fn refuse_long(&mut self) {
        self.service.refuse_long();
    }

    fn text(&self) -> &[u8] {
        self.service.text()
    }

    fn limit(&self) -> usize {
        self.service.limit()
    }

    fn settle(&mut self) -> Result<(), Failed> {
        self.service.settle()
    }

    fn leave(&mut self, seat: S::Seat) {
        self.service.leave(seat);
    }

    ghost keeps_all = { λ s seat d. S.keeps_all s.service seat (heard_dialogue (key_bytes s.key) d) };

    ghost goes_itself = { goes_itself S.goes_on S.goes_itself };

    ghost goes_further = { goes_further S.goes_on S.goes_further };

    ghost keeps_limit = { λ s t goes. S.keeps_limit s.service t.service goes.service };

    ghost stays_over = { stays_over S.goes_on S.is_over S.stays_over };

    ghost stays_failed = { λ s t goes. S.stays_failed s.service t.service goes.service };
}

// What is heard of a line: the line itself, or what is heard in its place.
fn text_of<'a>(heard: Heard, line: &'a [u8]) -> &'a [u8]
    ensures is { result.now ≡ line_for heard line.now }
    ensures line { IsLine line.now → IsLine result.now }
{
    match heard {
        Heard::AsSaid => line,
        Heard::Admin => b"HELLO admin KEY 'admin'",
        Heard::Nobody => b"HELLO admin KEY ''",
    }
}
