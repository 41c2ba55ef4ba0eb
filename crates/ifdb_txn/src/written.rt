// What a statement writes, and how many rows that counts.
ghost use Rattle.std.specs.Prelude.{◌≡◌};

use ifdb_row::Writes;
use std::marker::Model;

/// What a statement writes, and how many rows that counts: those given to INSERT, or those that UPDATE or DELETE matched.
#[derive(Drop)]
pub struct Written {
    writes: Writes,
    count: u64,
}

impl Model for Written {
    ghost use Rattle.ifdb_model.specs.Writes.{Written as Known};

    ghost Value = { Known };

    ghost view = { λ w. record { writes = w.writes; count = w.count } };
}

impl Written {
    /// Writes that count so many rows. Takes no memory.
    pub fn new(writes: Writes, count: u64) -> Self
        ensures { result ≡ record { writes = writes; count = count } }
    {
        Written { writes, count }
    }

    /// How many rows the statement counts.
    pub fn count(&self) -> u64
        ensures { result ≡ self.now.count }
    {
        self.count
    }

    /// The writes.
    pub fn writes(&self) -> &Writes
        ensures { result.now ≡ self.now.writes }
    {
        &self.writes
    }

    /// The writes, to keep.
    pub fn into_writes(self) -> Writes
        ensures { result ≡ self.writes }
    {
        let Written { writes, count: _ } = self;
        writes
    }
}
