// How long a generated script is.
ghost use Rattle.std.specs.Prelude.{◌≡◌};
ghost use Rattle.ifdb_generate.specs.Script.{sized};

use std::marker::Model;

/// How many INSERTs a generated script has.
pub const MOST: u64 = 10_000;

/// How many INSERTs a generated script has: from 1 to 10,000. Contracts see the number.
#[derive(Clone, Copy)]
pub struct Size {
    inserts: u64,
}

impl Model for Size {
    ghost use Rattle.std.specs.Prelude.{ℕ, ◌≤◌};
    ghost use Rattle.ifdb_generate.specs.declared.size.TheConstants.{MOST};

    ghost Value = { ℕ };

    ghost view = { λ s. s.inserts };

    ghost inverse = { λ n. record { inserts = n } };

    ghost invariant = { λ s. (1 ≤ s.inserts) × (s.inserts ≤ MOST) };
}

impl Size {
    /// So many INSERTs; `None` exactly where it isn't from 1 to 10,000.
    pub fn new(inserts: u64) -> Option<Size>
        ensures { result ≡ sized inserts }
    {
        if 1 <= inserts && inserts <= MOST {
            Some(Size { inserts })
        } else {
            None
        }
    }

    /// The number.
    pub fn inserts(self) -> u64
        ensures { result ≡ self }
    {
        self.inserts
    }
}
