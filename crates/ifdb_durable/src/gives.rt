//! What has a queue in it, and one append of all that waits there.
ghost use Rattle.std.specs.Prelude.{◌≡◌, List};
ghost use mathlib.Core.List.{IsPrefix};
ghost use Rattle.ifdb_turn.specs.Passes.{history, places, shares, BelongsTo, IsOrderly, NoForeignRoots};
ghost use Rattle.ifdb_durable.specs.Writing.{told, disk_of, HasSeat, IsIdle};

use crate::mark::Mark;
use crate::naming::Naming;
use crate::writer::Writer;
use ifdb_disk::Disk;
use ifdb_io::Failed;
use ifdb_turn::{Object, Pass, Turnstile};
use std::sync::Wait;

/// What threads take turns at, with a queue in it.
pub trait Gives<B: Naming, D: Disk>: Object {
    /// Gives all records that wait to the writer, and stands for what it stood for.
    fn give(&mut self, mark: &Mark<B, D>, writer: &mut Writer<B, D>)
        requires seat { HasSeat B.table writer.old }
        requires idle { IsIdle writer.old }
        ensures seat { HasSeat B.table writer.new }
        ensures told { told writer.new ≡ told writer.old }
        ensures disk { disk_of writer.new ≡ disk_of writer.old }
        ensures place { writer.new.journal ≡ writer.old.journal }
        ensures works { writer.new.has_failed ≡ writer.old.has_failed }
        ensures stands { (h : List Self.Entry) → Self.Object.stands self.old h
            → Self.Object.stands self.new h };
}

// Takes all records that wait, in one turn of the room, and appends them, in one turn of the writer's.
//
// # Errors
// `Failed` where the disk has failed, now or before.
pub(crate) fn flush<R: Wait, B: Naming, D: Disk, O: Gives<B, D>>(
    rt: &R,
    mark: &Mark<B, D>,
    writer: &Turnstile<Writer<B, D>>,
    writer_pass: &mut Pass<Writer<B, D>>,
    room: &Turnstile<O>,
    pass: &mut Pass<O>,
) -> Result<(), Failed>
    requires writer { BelongsTo writer.now writer_pass.old }
    requires room { BelongsTo room.now pass.old }
    ensures writer { BelongsTo writer.now writer_pass.new }
    ensures room { BelongsTo room.now pass.new }
    ensures sees { IsPrefix (history pass.old) (history pass.new) }
    ensures shares { shares pass.new ≡ shares pass.old }
    ensures orderly { IsOrderly O.right pass.old → IsOrderly O.right pass.new }
    ensures places { places pass.new ≡ places pass.old }
    ensures away { NoForeignRoots O.root pass.old pass.new }
    ensures writer_shares { shares writer_pass.new ≡ shares writer_pass.old }
{
    let mut turn = writer.enter(rt, writer_pass);
    let writer = turn.object();
    if writer.has_failed {
        turn.leave();
        return Err(Failed);
    }
    let mut inner = room.enter(rt, pass);
    inner.object().give(mark, writer);
    inner.leave();
    let written = writer.write(mark);
    turn.leave();
    written
}
