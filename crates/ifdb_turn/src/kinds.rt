//! The kinds of atomic step, each with what it tells the pass that takes it.
ghost use Rattle.std.specs.Prelude.{Option, None};
ghost use Rattle.ifdb_turn.specs.Views.{newcomer};
ghost use Rattle.ifdb_turn.specs.Kinds.{made_seat, took_ticket, took_first_ticket, looked_at_serving, handed_on, loaded_count, appended, without_shares, with_shares, joined};

use crate::object::Object;
use crate::view::{Kept, PassView};
use atomic_table::{Join, Play, Split};
use std::marker::{Brand, PhantomData};

/// A load makes a new seat, which has seen nothing.
pub(crate) struct MakeSeat;

impl<X, E> Play<Option<Kept<X, E>>, PassView<E>> for MakeSeat {
    ghost then = { made_seat };
}

/// The word of tickets becomes one more.
pub(crate) struct TakeTicket;

impl<X, E> Play<Option<Kept<X, E>>, PassView<E>> for TakeTicket {
    ghost then = { took_ticket };
}

/// The word of tickets becomes 1, and the table's first seat has ticket 0 and all shares.
pub(crate) struct TakeFirstTicket;

impl<X, E> Play<Option<Kept<X, E>>, PassView<E>> for TakeFirstTicket {
    ghost then = { took_first_ticket };
}

/// A load of the served ticket. Where it is the pass's own, the turn begins and the pass takes the slot.
pub(crate) struct LookAtServing<O> {
    object: PhantomData<O>,
}

impl<O: Object> Play<Option<Kept<O, O::Entry>>, PassView<O::Entry>> for LookAtServing<O> {
    ghost then = { looked_at_serving O.stands O.right O.root };
}

/// The served ticket becomes one more. The turn ends, and the pass gives the slot back.
pub(crate) struct HandOn<O> {
    object: PhantomData<O>,
}

impl<O: Object> Play<Option<Kept<O, O::Entry>>, PassView<O::Entry>> for HandOn<O> {
    ghost then = { handed_on O.right };
}

/// A load of the count. It changes no view, and tells what the rule says of the pass.
pub(crate) struct LoadCount<O> {
    object: PhantomData<O>,
}

impl<O: Object> Play<Option<Kept<O, O::Entry>>, PassView<O::Entry>> for LoadCount<O> {
    ghost then = { loaded_count O.right };
}

/// An entry that only contracts see: what `Turn::done` adds to the history. A caller passes `std::marker::Brand` as
/// the type and picks the entry in its proof, as `record { entry = Some e }`. A type of one's own fixes it once.
pub trait NamedEntry<E> {
    /// The entry, or none where nothing was picked, which no call of `Turn::done` accepts.
    ghost entry: { Option E };
}

impl<E> NamedEntry<E> for Brand {
    ghost entry = { None };
}

/// The count becomes one more. The entry is appended to the history, and its place is the pass's own.
pub(crate) struct Append<N> {
    named: PhantomData<N>,
}

impl<X, E, N: NamedEntry<E>> Play<Option<Kept<X, E>>, PassView<E>> for Append<N> {
    ghost then = { appended N.entry };
}

/// A pass is split: a new one gets one of its shares.
pub(crate) struct SplitShare;

impl<E> Split<PassView<E>> for SplitShare {
    ghost left = { without_shares 1 };

    ghost right = { with_shares 1 };
}

/// A pass is copied: the new one has no share. The witness is a copy, and is read by copies.
pub(crate) struct CopyPass;

impl<E> Split<PassView<E>> for CopyPass {
    ghost left = { without_shares 0 };

    ghost right = { with_shares 0 };
}

/// Two passes become one.
pub(crate) struct JoinPasses;

impl<E> Join<PassView<E>> for JoinPasses {
    ghost both = { joined };

    ghost spent = { newcomer };
}
