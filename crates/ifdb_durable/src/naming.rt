//! Which journal it is.
ghost use Rattle.std.specs.Prelude.{List, [], ◌∷◌};
ghost use Rattle.atomic_table.specs.Seated.{TableId};
ghost use Rattle.ifdb_journal.specs.declared.record.Record.{Record};
ghost use Rattle.ifdb_durable.specs.Told.{no_table};

use std::marker::Brand;

/// Which journal it is, which contracts alone see. One call of a program picks it.
pub trait Naming {
    /// The table of its mark.
    ghost table: { TableId };

    /// The records that it had when it was opened.
    ghost before: { List Record };
}

impl Naming for Brand {
    ghost table = { no_table };

    ghost before = { [] };
}
