// Since when the front of a disk stands.
ghost use Rattle.std.specs.Prelude.{Option, None};
ghost use Rattle.ifdb_disk.specs.Clock.{Clock};

use std::marker::Brand;

/// Since when the front of a disk stands, which contracts alone see. One call of a program picks it.
pub trait Origin {
    /// What the disk showed then, and before.
    ghost begun: { Option Clock };
}

impl Origin for Brand {
    ghost begun = { None };
}
