// Open transactions.
ghost use Rattle.std.specs.Prelude.{◌≡◌, ◌<◌, ◌+◌, ◌^◌, [], IfErr, IfOk, IfSome, IsTrue, OnErr, OnOk};
ghost use Rattle.ifdb_row.specs.Writes.{are_fitting, merged};
ghost use Rattle.ifdb_store.specs.Kept.{committed};
ghost use Rattle.ifdb_snapshot.specs.Sound.{is_sound};
ghost use Rattle.ifdb_snapshot.specs.Writing.{are_fit};
ghost use Rattle.ifdb_db.specs.Inside.{seen_of};

mod ask;

use crate::OutOfMemory;
use ifdb_row::Writes;
use ifdb_snapshot::{SharedState, Snapshot};
use ifdb_store::{Content, Store};
use std::alloc::Global;
use std::marker::Model;

/// An open transaction: what all saw at its BEGIN, its own writes, and the rows that it sees, which are those of its BEGIN with its own writes.
///
/// Its public state and rows are shared with the database, which copies what it changes: a transaction holds no copy of a table.
#[derive(Drop)]
pub struct Txn {
    alloc: Global,
    begin: u64,
    public: SharedState,
    base: Content,
    rows: Content,
    own: Writes,
}

impl Model for Txn {
    ghost use Rattle.ifdb_db.specs.Client.{Open};
    ghost use Rattle.ifdb_db.specs.Kept.{IsSoundTxn};

    ghost Value = { Open };

    ghost use Rattle.std.specs.Coded.{codes};
    ghost use Rattle.ifdb_bound.specs.contracts.condition.BoundCond as cond;
    ghost use Rattle.ifdb_bound.specs.contracts.expression.BoundExpr as expr;

    ghost coded = { Prim.hlevel (codes, cond.the_row.coded, expr.the_row.coded) };

    ghost view = { λ t. record {
      begin = t.begin;
      own = t.own;
      base = record { public = t.public; rows = t.base };
    } };

    ghost invariant = { λ t. IsSoundTxn (record {
      begin = t.begin;
      own = t.own;
      base = record { public = t.public; rows = t.base };
    }) t.rows };
}

impl Txn {
    /// A transaction that begins where the log has so many entries, over what all see then. It takes no memory but counts owners.
    pub(crate) fn begun(
        alloc: Global,
        begin: u64,
        public: &SharedState,
        rows: &Content,
    ) -> Result<Txn, OutOfMemory>
        requires { IsTrue (is_sound (record { public = public.now; rows = rows.now })) }
        ensures { IfOk result (λ txn. txn ≡ record {
          begin = begin;
          own = [];
          base = record { public = public.now; rows = rows.now };
        }) }
    {
        Ok(Txn {
            alloc,
            begin,
            public: public.share()?,
            base: rows.share()?,
            rows: rows.share()?,
            own: Writes::new(alloc),
        })
    }

    /// A copy of a transaction that has written nothing, which shares what all saw at the BEGIN; `None` where it has written, or
    /// there is no memory.
    pub(crate) fn lend(&self) -> Option<Txn>
        ensures { IfSome result (λ txn. txn ≡ self.now) }
    {
        if self.own.len() > 0 {
            return None;
        }
        match Txn::begun(self.alloc, self.begin, &self.public, &self.base) {
            Ok(txn) => Some(txn),
            Err(OutOfMemory) => None,
        }
    }

    /// Where the transaction's own writes are kept.
    pub(crate) fn alloc(&self) -> Global {
        self.alloc
    }

    /// How many entries the log had at the BEGIN.
    pub(crate) fn begin(&self) -> u64
        ensures { result ≡ self.now.begin }
    {
        self.begin
    }

    /// The transaction's own writes.
    pub(crate) fn own(&self) -> &Writes
        ensures own { result.now ≡ self.now.own }
        ensures fit { IsTrue (are_fit self.now.base.public result.now) }
        ensures fitting { IsTrue (are_fitting result.now) }
    {
        &self.own
    }

    /// What the transaction sees.
    pub(crate) fn seen(&self) -> Snapshot<'_>
        ensures { result ≡ seen_of self.now }
    {
        Snapshot::new(self.alloc, self.public.get(), &self.rows)
    }

    /// Adds writes to the transaction's own. `OutOfMemory` changes nothing.
    pub(crate) fn write(&mut self, writes: Writes) -> Result<(), OutOfMemory>
        requires { IsTrue (are_fit self.old.base.public writes) }
        ensures ok { OnOk result (self.new ≡ record self.old { own = merged self.old.own writes }) }
        ensures err { OnErr result (self.new ≡ self.old) }
    {
        let rows = self.rows.after(self.alloc, &writes)?;
        self.own.merge(writes)?;
        self.rows = rows;
        Ok(())
    }

    /// Makes the transaction's writes in a store, as the commit behind so many entries of the log. Where no entry was added since
    /// the BEGIN, the rows that the transaction sees become the store's. `Err` is want of memory, and gives it back.
    pub(crate) fn commit(self, store: &mut Store, count: u64) -> Result<(), Txn>
        requires few { count + 1 < 2 ^ 64 }
        requires newest { self.begin ≡ count → self.base.rows ≡ store.old.rows }
        ensures done { OnOk result (store.new
            ≡ committed store.old (record { stamp = count + 1; writes = self.own })) }
        ensures back { IfErr result (λ back. back ≡ self) }
        ensures err { OnErr result (store.new ≡ store.old) }
    {
        if self.begin == count {
            return self.install(store, count + 1);
        }
        let Txn {
            alloc,
            begin,
            public,
            base,
            rows,
            own,
        } = self;
        match store.commit(count + 1, own) {
            Ok(()) => Ok(()),
            Err(own) => Err(Txn {
                alloc,
                begin,
                public,
                base,
                rows,
                own,
            }),
        }
    }

    /// Puts the rows that the transaction sees in place of a store's, which are still those of the BEGIN, as a commit of its writes.
    /// `Err` is want of memory, and gives it back.
    fn install(self, store: &mut Store, stamp: u64) -> Result<(), Txn>
        requires newest { self.base.rows ≡ store.old.rows }
        ensures done { OnOk result (store.new
            ≡ committed store.old (record { stamp = stamp; writes = self.own })) }
        ensures back { IfErr result (λ back. back ≡ self) }
        ensures err { OnErr result (store.new ≡ store.old) }
    {
        let Txn {
            alloc,
            begin,
            public,
            base,
            rows,
            own,
        } = self;
        match store.install(stamp, own, rows) {
            Ok(()) => Ok(()),
            Err((own, rows)) => Err(Txn {
                alloc,
                begin,
                public,
                base,
                rows,
                own,
            }),
        }
    }
}
