// What a connection keeps between its turns.
ghost use Rattle.std.specs.Prelude.{◌≡◌, ◌≤◌, ◌++◌, [], true, Ok, length, OnOk, OnErr};
ghost use Rattle.ifdb_io.specs.Causes.{HasCause};
ghost use Rattle.ifdb_loop.specs.Moves.{Sends};
ghost use Rattle.ifdb_loop.specs.declared.chunk.TheConstants.{SIZE};

use crate::Port;
use ifdb_io::{Failed, OutOfMemory};
use std::alloc::Global;
use std::marker::Model;

/// What a connection keeps between its turns: the bytes that came and aren't asked yet, and those that aren't written yet.
/// One with neither takes no memory beside this struct.
#[derive(Drop)]
pub struct Wires {
    alloc: Global,
    held: Vec<u8>,
    out: Vec<u8>,
    sent: usize,
}

impl Model for Wires {
    ghost use Rattle.std.specs.Prelude.{◌≤◌, length, drop, vec_len};
    ghost use Rattle.ifdb_loop.specs.Wiring.{Wiring};
    ghost use Rattle.ifdb_loop.specs.declared.chunk.TheConstants.{SIZE};

    ghost Value = { Wiring };

    ghost view = { λ w. record { held = w.held.items; owed = drop w.sent w.out.items } };

    ghost invariant = { λ w. (w.sent ≤ vec_len w.out) × (vec_len w.held ≤ SIZE) };
}

impl Wires {
    /// Nothing.
    pub fn new(alloc: Global) -> Wires
        ensures { result ≡ record { held = []; owed = [] } }
    {
        Wires {
            alloc,
            held: Vec::new(alloc),
            out: Vec::new(alloc),
            sent: 0,
        }
    }

    /// The bytes that came and aren't asked yet.
    pub fn held(&self) -> &[u8]
        ensures value { result.now ≡ self.now.held }
        ensures size { length self.now.held ≤ SIZE }
    {
        &self.held
    }

    /// How many bytes are owed.
    pub fn owed(&self) -> usize
        ensures { result ≡ length self.now.owed }
    {
        self.out.len() - self.sent
    }

    /// Keeps these bytes for the next turn, in place of those that were held.
    ///
    /// # Errors
    /// `OutOfMemory` changes nothing.
    pub fn keep(&mut self, bytes: &[u8]) -> Result<(), OutOfMemory>
        requires { length bytes.now ≤ SIZE }
        ensures ok { OnOk result (self.new ≡ record self.old { held = bytes.now }) }
        ensures err { OnErr result (self.new ≡ self.old) }
    {
        let mut kept = Vec::new(self.alloc);
        kept.extend_from_slice(bytes)?;
        self.held = kept;
        Ok(())
    }

    /// Owes this text too.
    ///
    /// # Errors
    /// `OutOfMemory` changes nothing.
    pub fn put(&mut self, text: &[u8]) -> Result<(), OutOfMemory>
        ensures ok { OnOk result (self.new ≡ record self.old { owed = self.old.owed ++ text.now }) }
        ensures err { OnErr result (self.new ≡ self.old) }
    {
        self.pack();
        self.out.extend_from_slice(text)?;
        Ok(())
    }

    // Drops what was written.
    fn pack(&mut self)
        ensures { self.new ≡ self.old }
    {
        if self.sent == 0 {
            return;
        }
        let rest = self.out.len() - self.sent;
        self.out.copy_within(self.sent.., 0);
        self.out.truncate(rest);
        self.sent = 0;
    }

    /// Writes what is owed, as far as there is room for it now, and says whether nothing is owed any more. Then its memory
    /// is given back.
    ///
    /// # Errors
    /// `Failed` where the port failed; a front of what was owed may have been written.
    pub fn flush<P: Port>(&mut self, port: &mut P) -> Result<bool, Failed>
        ensures held { self.new.held ≡ self.old.held }
        ensures sends { Sends self.old.owed self.new.owed (P.written port.old) (P.written port.new) }
        ensures all { result ≡ Ok true → self.new.owed ≡ [] }
        ensures cause { HasCause (P.unwritten port.old) (P.unwritten port.new) result }
        ensures given { P.given port.new ≡ P.given port.old }
        ensures left { P.left port.new ≡ P.left port.old }
        ensures unread { P.unread port.new ≡ P.unread port.old }
    {
        while self.sent < self.out.len() {
            match port.write(&self.out[self.sent..])? {
                Some(count) => self.sent += count,
                None => return Ok(false),
            }
        }
        self.out = Vec::new(self.alloc);
        self.sent = 0;
        Ok(true)
    }
}
