// A SELECT outside a transaction that is answered away from the room.
ghost use Rattle.std.specs.Prelude.{IfOk};
ghost use Rattle.ifdb_db.specs.Looks.{IsShown, Shows};

use crate::OutOfMemory;
use crate::looks::select;
use crate::reading::SelectLine;
use crate::room::refusal_of;
use ifdb_label::Label;
use ifdb_snapshot::{SharedState, Snapshot};
use ifdb_store::Content;
use ifdb_value::Principal;
use ifdb_wire::{Fault, Reply};
use std::alloc::Global;
use std::marker::Model;

/// What a session outside a transaction sees, shared with the database, which copies what it changes: no table is copied.
#[derive(Drop)]
pub(crate) struct Sight {
    pub(crate) alloc: Global,
    pub(crate) asker: Principal,
    pub(crate) label: Label,
    pub(crate) public: SharedState,
    pub(crate) rows: Content,
}

impl Model for Sight {
    ghost use Rattle.std.specs.Prelude.{IsTrue, length};
    ghost use Rattle.ifdb_label.specs.Tags.{AreMade};
    ghost use Rattle.ifdb_snapshot.specs.Sound.{is_sound};
    ghost use Rattle.ifdb_db.specs.Looks.{Sight as Seen};

    ghost Value = { Seen };

    ghost use Rattle.std.specs.Coded.{codes};
    ghost use Rattle.ifdb_bound.specs.contracts.condition.BoundCond as cond;
    ghost use Rattle.ifdb_bound.specs.contracts.expression.BoundExpr as expr;

    ghost coded = { Prim.hlevel (codes, cond.the_row.coded, expr.the_row.coded) };

    ghost view = { λ s. record {
      asker = s.asker;
      label = s.label;
      seen = record { public = s.public; rows = s.rows };
    } };

    ghost invariant = { λ s. IsTrue (is_sound (record { public = s.public; rows = s.rows }))
        × AreMade (length s.public.tags) s.label };
}

/// A SELECT that a session asks outside a transaction, and what it is answered from.
///
/// Contracts see the line, and who asks it, at which label, over what.
#[derive(Drop)]
pub struct Look<'a> {
    pub(crate) line: SelectLine<'a>,
    pub(crate) sight: Sight,
}

impl<'a> Model for Look<'a> {
    ghost use Rattle.ifdb_db.specs.Looks.{Looking};

    ghost Value = { Looking };

    ghost use Rattle.std.specs.Coded.{codes};
    ghost use Rattle.ifdb_bound.specs.contracts.condition.BoundCond as cond;
    ghost use Rattle.ifdb_bound.specs.contracts.expression.BoundExpr as expr;

    ghost coded = { Prim.hlevel (codes, cond.the_row.coded, expr.the_row.coded) };

    ghost view = { λ l. record { sight = l.sight; line = l.line } };
}

impl<'a> Look<'a> {
    /// The answer, from what all saw when the session asked: what others do meanwhile can't matter.
    pub fn answer(self) -> Result<Reply, OutOfMemory>
        ensures { IfOk result (Shows self.entry) }
    {
        match self.find() {
            Ok(reply) => Ok(reply),
            Err(fault) => refusal_of(fault),
        }
    }

    /// The answer; a refusal is an error, and so is want of memory.
    fn find(self) -> Result<Reply, Fault>
        ensures { IsShown self.entry result }
    {
        let Look { line, sight } = self;
        let seen = Snapshot::new(sight.alloc, sight.public.get(), &sight.rows);
        select(&seen, sight.asker, &sight.label, line.into_request())
    }
}
