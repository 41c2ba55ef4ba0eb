//! What a pass knows of the turnstile, what lies in the slot, and the rule over both.
ghost use Rattle.atomic_table.specs.Seated.{TableId, table_id_coded};
ghost use base.Fml.{ftrue};

use crate::object::Object;
use atomic_table::{Badge, Seat, TableRule};
use std::collections::LinkedList;
use std::marker::{Model, PhantomData};

/// Which table a pass is of.
pub struct TableIdentity {
    pub ghost id: { TableId } by { table_id_coded },
}

impl Model for TableIdentity {
    ghost also_owns = { λ _. ftrue };
}

/// How far a pass is on its way to a turn.
pub enum Stage<E> {
    /// It is the table's first seat, which may take ticket 0.
    Opening,
    /// It has no ticket.
    Idle,
    /// It has a ticket, and its turn has not begun.
    Waiting {
        ticket: u64,
    },
    /// It has the turn: its ticket, whether an entry was appended in this turn, and the whole history.
    InTurn {
        ticket: u64,
        appended: bool,
        whole: LinkedList<E>,
    },
}

/// What a pass knows. No value of this type is made: it is what proofs say of a seat of the table.
pub struct PassView<E> {
    /// The table, once ticket 0 was taken.
    pub table: TableIdentity,
    /// The beginning of the history that was seen.
    pub history: LinkedList<E>,
    /// The shorter of the two histories that were put together by the last join.
    pub earlier: LinkedList<E>,
    /// The places of the pass's own entries, rising. To proofs an array of numbers is a list of any length.
    pub places: [u64; 0],
    /// How many of all shares the pass has.
    pub shares: u64,
    /// How far it is on its way to a turn.
    pub stage: Stage<E>,
}

/// What lies in the slot while nobody has the turn.
pub struct Kept<X, E> {
    /// The object itself.
    pub object: X,
    /// A pass without a share, which has seen the whole history and tells it to whoever has the turn.
    pub witness: Badge<PassView<E>>,
}

/// The rule of the table, which each step keeps.
pub struct TurnRule<O> {
    object: PhantomData<O>,
}

impl<O: Object> TableRule<Option<Kept<O, O::Entry>>, PassView<O::Entry>, ()> for TurnRule<O> {
    ghost use Rattle.ifdb_turn.specs.Views.{opener};
    ghost use Rattle.ifdb_turn.specs.Rule.{Ruled};

    ghost holds = { λ _. Ruled O.stands O.right O.root };

    ghost first = { λ _. opener };
}

/// The seat of a pass at the table.
pub type PassSeat<O> = Seat<Option<Kept<O, <O as Object>::Entry>>, PassView<<O as Object>::Entry>>;
