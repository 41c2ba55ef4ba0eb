//! How many records are on the disk, and what a connection was told of it.
ghost use Rattle.std.specs.Prelude.{◌≡◌, [], IfOk, length, ◌≤◌};
ghost use Rattle.ifdb_durable.specs.Told.{Begins, kept_by};
ghost use Rattle.ifdb_durable.specs.Seats.{IsAt, IsOpened, IsBoth};

use crate::kinds::{Hear, Look, LookForFailure, Read};
use crate::naming::Naming;
use crate::view::{Hand, MarkRule, MarkSeat, View};
use atomic_table::Table;
use std::alloc::{AllocError, Global};
use std::marker::{Model, PhantomData};

// The word with the number of records on the disk.
pub(crate) const KEPT: usize = 0;

// The word that is 1 once the disk has failed.
pub(crate) const FAILED: usize = 1;

/// The mark of a journal, which has no name yet, and the seat that knows all.
#[derive(Drop)]
pub struct Opened<D> {
    pub(crate) table: Table<Hand<D>, View<D>, (), MarkRule<D>, Global>,
    pub(crate) seat: MarkSeat<D>,
}

/// How many records were put on the disk since the journal was opened, and whether the disk has failed. All threads share it.
#[derive(Drop)]
pub struct Mark<B: Naming, D> {
    pub(crate) table: Table<Hand<D>, View<D>, (), MarkRule<D>, Global>,
    naming: PhantomData<B>,
    ghost named: { table.shared.table_id ≡ B.table },
    ghost sized: { table.shared.table_id.words ≡ 2 },
}

/// What is known of the disk. Contracts see the appends that are known to be answered, each with the disk as it left it, and
/// whether the disk is known to have failed.
#[derive(Drop)]
pub struct Receipt<B: Naming, D> {
    pub(crate) seat: MarkSeat<D>,
    naming: PhantomData<B>,
}

impl<B: Naming, D> Model for Receipt<B, D> {
    ghost use Rattle.std.specs.Prelude.{◌≡◌, List, []};
    ghost use Rattle.ifdb_durable.specs.declared.view.Told.{Told};

    ghost Value = { Told D };

    ghost view = { λ r. r.seat.me.0.told };

    ghost invariant = { λ r. (r.seat.table_id ≡ B.table) × (r.seat.me.1 ≡ []) };
}

impl<B: Naming, D> Receipt<B, D> {
    // The seat.
    pub(crate) fn into_seat(self) -> MarkSeat<D>
        ensures told { result.me.0.told ≡ self }
        ensures at { IsAt B.table result }
    {
        let Receipt { seat, naming: _ } = self;
        seat
    }
}

impl<D> Opened<D> {
    /// A mark at 0. It takes the memory of one table.
    pub fn new(alloc: Global) -> Result<Opened<D>, AllocError>
        ensures { IfOk result IsOpened }
    {
        let (table, seat) = Table::of_words(alloc, &[0, 0], &())?;
        Ok(Opened { table, seat })
    }

    // The mark of this name.
    pub(crate) fn named<B: Naming>(self) -> (Mark<B, D>, MarkSeat<D>)
        requires opened { IsOpened self }
        requires name { self.table.shared.table_id ≡ B.table }
        ensures { IsBoth B.table result.1 }
    {
        let Opened { table, seat } = self;
        (
            Mark {
                table,
                naming: PhantomData,
            },
            seat,
        )
    }
}

impl<B: Naming, D> Mark<B, D> {
    // The first receipt, of the seat that lies with the journal.
    pub(crate) fn first(&self, seat: &mut MarkSeat<D>) -> Receipt<B, D>
        requires { IsAt B.table seat.old }
        ensures same { (seat.new.me ≡ seat.old.me) × IsAt B.table seat.new }
        ensures first { result ≡ seat.old.me.0.told }
    {
        let seat = self.table.shared.split_seat::<Read>(seat);
        Receipt {
            seat,
            naming: PhantomData,
        }
    }

    /// A receipt that knows as much.
    pub fn again(&self, receipt: &mut Receipt<B, D>) -> Receipt<B, D>
        ensures same { receipt.new ≡ receipt.old }
        ensures again { result ≡ receipt.old }
    {
        let seat = self.table.shared.split_seat::<Read>(&mut receipt.seat);
        Receipt {
            seat,
            naming: PhantomData,
        }
    }

    /// How many records are on the disk, which the receipt then knows. It costs one load.
    pub fn look(&self, receipt: &mut Receipt<B, D>) -> u64
        ensures count { result ≡ length (kept_by receipt.new) }
        ensures more { Begins receipt.old receipt.new }
    {
        self.table.shared.load::<Look>(&mut receipt.seat, KEPT)
    }

    /// Whether the disk has failed, which the receipt then knows. It costs one load.
    pub fn has_failed(&self, receipt: &mut Receipt<B, D>) -> bool
        ensures failed { result ≡ receipt.new.has_failed }
        ensures more { Begins receipt.old receipt.new }
    {
        self.table
            .shared
            .load::<LookForFailure>(&mut receipt.seat, FAILED)
            == 1
    }

    /// Takes another receipt into one, which then begins with both.
    pub fn join(&self, receipt: &mut Receipt<B, D>, other: Receipt<B, D>)
        ensures more { Begins receipt.old receipt.new }
        ensures other { Begins other receipt.new }
    {
        let Receipt { seat, naming: _ } = other;
        self.table.shared.join_seat::<Hear>(&mut receipt.seat, seat);
        self.table.shared.load::<Look>(&mut receipt.seat, KEPT);
    }
}
