//! The kinds of steps at the mark, each with what it tells.
ghost use Rattle.ifdb_durable.specs.Kinds.{advanced, as_queue, as_reader, as_writer, failed, hears, looked, looked_for_failure, met, spent, took};

use crate::view::{Hand, View};
use atomic_table::{Join, Play, Split};

/// A load: the seat is told all, and the number of records on the disk was found.
pub(crate) struct Look;

impl<D> Play<Hand<D>, View<D>> for Look {
    ghost then = { looked };
}

/// A load: the seat is told all, and it was found whether the disk has failed.
pub(crate) struct LookForFailure;

impl<D> Play<Hand<D>, View<D>> for LookForFailure {
    ghost then = { looked_for_failure };
}

/// The records in hand, which are said, were taken out of the queue.
pub(crate) struct Take;

impl<D> Play<Hand<D>, View<D>> for Take {
    ghost then = { took };
}

/// An append was answered, after which the disk is what is said. All records that were taken are on it.
pub(crate) struct Advance;

impl<D> Play<Hand<D>, View<D>> for Advance {
    ghost then = { advanced };
}

/// The disk has failed.
pub(crate) struct Fail;

impl<D> Play<Hand<D>, View<D>> for Fail {
    ghost then = { failed };
}

/// A new seat was told as much.
pub(crate) struct Read;

impl<D> Split<View<D>> for Read {
    ghost left = { λ v. v };

    ghost right = { as_reader };
}

/// The seat of both becomes that of the writer, and a new one that of the queue.
pub(crate) struct Part;

impl<D> Split<View<D>> for Part {
    ghost left = { as_writer };

    ghost right = { as_queue };
}

/// The seats of the writer and of the queue become one.
pub(crate) struct Meet;

impl<D> Join<View<D>> for Meet {
    ghost both = { met };

    ghost spent = { spent };
}

/// A seat hears what a reader's seat was told.
pub(crate) struct Hear;

impl<D> Join<View<D>> for Hear {
    ghost both = { hears };

    ghost spent = { spent };
}
