// Sources in memory.
ghost use Rattle.std.specs.Prelude.{◌≡◌, ◌<◌, length, drop, is_err, IfOk};
ghost use Rattle.std.specs.Io.{ReadsAtMost};
ghost use Rattle.std.specs.Io.KnownBytes.{ReadConsumes};
ghost use Rattle.ifdb_io.specs.Causes.{HasCause};
ghost use Rattle.ifdb_io.specs.Memory.{is_listed, portion, feed_after};

use crate::{Failed, Source};
use std::marker::Model;

/// A source that gives the bytes that it was made of, and never fails.
#[derive(Drop)]
pub struct SureSource {
    bytes: Vec<u8>,
    given: usize,
    piece: usize,
}

impl Model for SureSource {
    ghost use Rattle.std.specs.Prelude.{◌<◌, ◌≤◌, drop, vec_len};
    ghost use Rattle.ifdb_io.specs.Memory.{SureFeed};

    ghost Value = { SureFeed };

    ghost view = { λ s. record { left = drop s.given s.bytes.items; piece = s.piece } };

    ghost invariant = { λ s. (s.given ≤ vec_len s.bytes) × (0 < s.piece) };
}

impl SureSource {
    /// A source of these bytes, which gives at most `piece` of them at a call.
    pub fn new(bytes: Vec<u8>, piece: usize) -> SureSource
        requires { 0 < piece }
        ensures { result ≡ record { left = bytes.items; piece = piece } }
    {
        SureSource {
            bytes,
            given: 0,
            piece,
        }
    }
}

impl Source for SureSource {
    ghost use Rattle.std.specs.Prelude.{Some};

    ghost left = { λ source. Some source.left };

    ghost faults = { λ _. 0 };

    fn read(&mut self, buf: &mut [u8]) -> Result<usize, Failed>
        ensures bound { ReadsAtMost result buf.new }
        ensures bytes { ReadConsumes (Some self.old.left) (Some self.new.left) result buf.new }
        ensures cause { HasCause 0 0 result }
        ensures count { result
            ≡ Ok (portion (length self.old.left) self.old.piece (length buf.old)) }
        ensures state { IfOk result
            (λ n. self.new ≡ record self.old { left = drop n self.old.left }) }
    {
        let count = (self.bytes.len() - self.given)
            .min(self.piece)
            .min(buf.len());
        buf[..count].copy_from_slice(&self.bytes[self.given..self.given + count]);
        self.given += count;
        Ok(count)
    }
}

/// A source that gives the bytes that it was made of, and fails at the calls that it was told.
#[derive(Drop)]
pub struct MemorySource {
    source: SureSource,
    fails: Vec<u64>,
    calls: u64,
    faults: u64,
}

impl Model for MemorySource {
    ghost use Rattle.ifdb_io.specs.Memory.{Feed};

    ghost Value = { Feed };

    ghost view = { λ s. record {
      left = s.source.left;
      piece = s.source.piece;
      fails = s.fails.items;
      calls = s.calls;
      faults = s.faults;
    } };
}

impl MemorySource {
    /// A source of these bytes, which gives at most `piece` of them at a call. Exactly the calls
    /// whose numbers, from 0, are in `fails` fail.
    pub fn new(bytes: Vec<u8>, piece: usize, fails: Vec<u64>) -> MemorySource
        requires { 0 < piece }
        ensures { result ≡ record {
          left = bytes.items;
          piece = piece;
          fails = fails.items;
          calls = 0;
          faults = 0;
        } }
    {
        MemorySource {
            source: SureSource::new(bytes, piece),
            fails,
            calls: 0,
            faults: 0,
        }
    }
}

impl Source for MemorySource {
    ghost use Rattle.std.specs.Prelude.{Some};

    ghost left = { λ source. Some source.left };

    ghost faults = { λ source. source.faults };

    fn read(&mut self, buf: &mut [u8]) -> Result<usize, Failed>
        ensures bound { ReadsAtMost result buf.new }
        ensures bytes { ReadConsumes (Some self.old.left) (Some self.new.left) result buf.new }
        ensures cause { HasCause self.old.faults self.new.faults result }
        ensures fails { is_err result ≡ is_listed self.old.fails self.old.calls }
        ensures count { IfOk result
            (λ n. n ≡ portion (length self.old.left) self.old.piece (length buf.old)) }
        ensures state { self.new ≡ feed_after self.old (length buf.old) }
    {
        let call = self.calls;
        self.calls = call.saturating_add(1);
        if self.fails.contains(&call) {
            self.faults = self.faults.saturating_add(1);
            return Err(Failed);
        }
        self.source.read(buf)
    }
}
