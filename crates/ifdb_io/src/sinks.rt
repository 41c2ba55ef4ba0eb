// Sinks in memory.
ghost use Rattle.std.specs.Prelude.{◌≡◌, ◌<◌, [], length, is_err, IfOk};
ghost use Rattle.std.specs.Io.{WritesAtMost};
ghost use Rattle.std.specs.Io.KnownBytes.{WriteAppends};
ghost use Rattle.ifdb_io.specs.Causes.{HasCause};
ghost use Rattle.ifdb_io.specs.Memory.{is_full, taken_of, fails_at, store_after, sure_faults, sure_store_after};

use crate::reads::add;
use crate::{Failed, OutOfMemory, Sink};
use std::alloc::Global;
use std::marker::Model;

/// A sink that keeps the bytes that it took, and fails only at a full room.
#[derive(Drop)]
pub struct SureSink {
    bytes: Vec<u8>,
    room: usize,
    piece: usize,
    faults: u64,
}

impl Model for SureSink {
    ghost use Rattle.std.specs.Prelude.{◌≡◌, ◌<◌, ◌≤◌, vec_len, vec_capacity};
    ghost use Rattle.ifdb_io.specs.Memory.{SureStore};

    ghost Value = { SureStore };

    ghost view = { λ s. record {
      written = s.bytes.items;
      room = s.room;
      piece = s.piece;
      faults = s.faults;
    } };

    ghost invariant = { λ s. (vec_len s.bytes ≤ s.room) × (s.room ≤ vec_capacity s.bytes) × (0 < s.piece)
        × (vec_len s.bytes < s.room → s.faults ≡ 0) };
}

impl SureSink {
    /// A sink that takes at most `piece` bytes at a call and `room` bytes in all, for which it takes
    /// the memory here.
    pub fn new(alloc: Global, piece: usize, room: usize) -> Result<SureSink, OutOfMemory>
        requires { 0 < piece }
        ensures { IfOk result (λ sink. sink ≡ record {
          written = [];
          room = room;
          piece = piece;
          faults = 0;
        }) }
    {
        Ok(SureSink {
            bytes: Vec::with_capacity(alloc, room)?,
            room,
            piece,
            faults: 0,
        })
    }

    /// What was written.
    pub fn bytes(&self) -> &[u8]
        ensures { result.now ≡ self.now.written }
    {
        &self.bytes
    }
}

impl Sink for SureSink {
    ghost use Rattle.std.specs.Prelude.{Some, None};
    ghost use Rattle.ifdb_io.specs.Memory.{sure_faults};

    ghost written = { λ sink. Some sink.written };

    ghost faults = { λ sink. sure_faults sink };

    ghost beside = { λ sink. (None, 0, sink.room) };

    fn write(&mut self, piece: &[u8]) -> Result<usize, Failed>
        ensures bound { WritesAtMost result piece.now }
        ensures some { IfOk result (λ n. 0 < length piece.now → 0 < n) }
        ensures bytes { WriteAppends (Some self.old.written)
            (Some self.new.written) result piece.now }
        ensures cause { HasCause (sure_faults self.old) (sure_faults self.new) result }
        ensures fails { is_err result ≡ is_full self.old.written self.old.room piece.now }
        ensures count { IfOk result (λ n.
            n ≡ taken_of self.old.written self.old.room self.old.piece piece.now) }
        ensures state { self.new ≡ sure_store_after self.old piece.now }
    {
        if piece.is_empty() {
            return Ok(0);
        }
        if self.bytes.len() == self.room {
            self.faults = self.faults.saturating_add(1);
            return Err(Failed);
        }
        let count = (self.room - self.bytes.len())
            .min(self.piece)
            .min(piece.len());
        add(&mut self.bytes, &piece[..count]);
        Ok(count)
    }
}

/// A sink that keeps the bytes that it took, and fails at a full room and at the calls that it was
/// told.
#[derive(Drop)]
pub struct MemorySink {
    sink: SureSink,
    fails: Vec<u64>,
    calls: u64,
    faults: u64,
}

impl Model for MemorySink {
    ghost use Rattle.ifdb_io.specs.Memory.{Store};

    ghost Value = { Store };

    ghost view = { λ s. record {
      written = s.sink.written;
      room = s.sink.room;
      piece = s.sink.piece;
      fails = s.fails.items;
      calls = s.calls;
      faults = s.faults;
    } };
}

impl MemorySink {
    /// A sink that takes at most `piece` bytes at a call and `room` bytes in all, for which it takes
    /// the memory here. The calls whose numbers, from 0, are in `fails` fail, and a write at a full
    /// room.
    pub fn new(
        alloc: Global,
        piece: usize,
        room: usize,
        fails: Vec<u64>,
    ) -> Result<MemorySink, OutOfMemory>
        requires { 0 < piece }
        ensures { IfOk result (λ sink. sink ≡ record {
          written = [];
          room = room;
          piece = piece;
          fails = fails.items;
          calls = 0;
          faults = 0;
        }) }
    {
        Ok(MemorySink {
            sink: SureSink::new(alloc, piece, room)?,
            fails,
            calls: 0,
            faults: 0,
        })
    }

    /// What was written.
    pub fn bytes(&self) -> &[u8]
        ensures { result.now ≡ self.now.written }
    {
        self.sink.bytes()
    }
}

impl Sink for MemorySink {
    ghost use Rattle.std.specs.Prelude.{Some};

    ghost written = { λ sink. Some sink.written };

    ghost faults = { λ sink. sink.faults };

    fn write(&mut self, piece: &[u8]) -> Result<usize, Failed>
        ensures bound { WritesAtMost result piece.now }
        ensures some { IfOk result (λ n. 0 < length piece.now → 0 < n) }
        ensures bytes { WriteAppends (Some self.old.written)
            (Some self.new.written) result piece.now }
        ensures cause { HasCause self.old.faults self.new.faults result }
        ensures fails { is_err result ≡ fails_at self.old piece.now }
        ensures count { IfOk result (λ n.
            n ≡ taken_of self.old.written self.old.room self.old.piece piece.now) }
        ensures state { self.new ≡ store_after self.old piece.now }
    {
        let call = self.calls;
        self.calls = call.saturating_add(1);
        if self.fails.contains(&call) {
            self.faults = self.faults.saturating_add(1);
            return Err(Failed);
        }
        match self.sink.write(piece) {
            Ok(count) => Ok(count),
            Err(Failed) => {
                self.faults = self.faults.saturating_add(1);
                Err(Failed)
            }
        }
    }
}
