//! What a seat at the mark knows, and the rule over all seats.
ghost use Rattle.std.specs.Prelude.{true, []};

use atomic_table::{Seat, TableRule};
use ifdb_journal::{Batch, Record};
use std::collections::LinkedList;
use std::marker::PhantomData;

/// What an append left: the disk, and all records that were kept then, behind those that the journal had when it was opened.
/// It is for proofs: no value is made.
pub struct Flush<D> {
    /// The disk.
    pub disk: D,
    /// The records.
    pub kept: LinkedList<Record>,
}

/// What can be told of a disk: the appends that were answered, the opening first, and whether the disk has failed since. It is
/// for proofs: no value is made.
pub struct Told<D> {
    /// The appends.
    pub flushes: LinkedList<Flush<D>>,
    /// Whether the disk has failed.
    pub has_failed: bool,
}

/// The disk, and the records in hand.
#[derive(Drop)]
pub struct Hand<D> {
    pub(crate) disk: D,
    pub(crate) batch: Batch,
}

/// What a seat knows. It is what proofs say of a seat: no value is made.
pub struct View<D> {
    /// It lies with the queue: nobody else's records come into the order.
    pub is_queue: bool,
    /// It lies with the journal: nobody else appends.
    pub is_writer: bool,
    /// The records that were taken out of the queue so far, for these two.
    pub taken: LinkedList<Record>,
    /// The same as the other one knew it, where both are one seat.
    pub other: LinkedList<Record>,
    /// What it was told of the disk.
    pub told: Told<D>,
    /// What a seat was told that was joined to it.
    pub heard: Told<D>,
}

/// The rule that each step keeps.
pub struct MarkRule<D> {
    disk: PhantomData<D>,
}

impl<D> TableRule<Hand<D>, View<D>, ()> for MarkRule<D> {
    ghost use Rattle.ifdb_durable.specs.Told.{opener};
    ghost use Rattle.ifdb_durable.specs.Rule.{Ruled};

    ghost holds = { λ _. Ruled };

    ghost first = { λ _. opener };
}

/// A seat at the mark.
pub type MarkSeat<D> = Seat<Hand<D>, View<D>>;
