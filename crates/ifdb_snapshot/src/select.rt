// SELECT.
ghost use Rattle.std.specs.Prelude.{◌≡◌, ◌⊎◌, IfOk, IfErr, IsTrue, Ok, length, nat_le};
ghost use Rattle.ifdb_label.specs.Tags.{AreMade};
ghost use Rattle.ifdb_wire.specs.declared.fault.Fault.TheVariants.{OutOfMemory as NoMemory};
ghost use Rattle.ifdb_wire.specs.declared.reply.Reply.TheVariants.{Refused};
ghost use Rattle.ifdb_catalog.specs.Fits.{bound_fits, query_fits};
ghost use Rattle.ifdb_model.specs.Query.{select_reply};
ghost use Rattle.ifdb_model.specs.Step.{look_reply};
ghost use Rattle.ifdb_snapshot.specs.Narrow.{is_narrow_bound};
ghost use Rattle.ifdb_snapshot.specs.Selecting.{view_fault};

use crate::snapshot::Snapshot;
use crate::views::CatalogViews;
use ifdb_bound::{Bound, BoundSelect};
use ifdb_exec::Reading;
use ifdb_label::Label;
use ifdb_value::ViewId;
use ifdb_view::{ViewFault, query};
use ifdb_wire::{Fault, Reply, Table};

impl<'a> Snapshot<'a> {
    /// The answer to a bound SELECT at a label. Other requests are answered by `Done`.
    ///
    /// `ViewAuthority` where the owner of a view doesn't hold a tag that the view declassifies; `OutOfRange` where a number isn't an `i64`.
    pub fn look(&self, label: &Label, found: &Bound) -> Result<Reply, Fault>
        requires narrow { IsTrue (is_narrow_bound found.now) }
        requires fits { IsTrue (bound_fits self.now.public found.now) }
        requires made { AreMade (length self.now.public.tags) label.now }
        ensures told { IfOk result (λ reply.
            look_reply self.now.public self.now.rows label.now (Ok found.now) ≡ reply) }
        ensures refused { IfErr result (λ fault. (fault ≡ NoMemory)
            ⊎ (look_reply self.now.public self.now.rows label.now (Ok found.now) ≡ Refused fault)) }
    {
        match found {
            Bound::Select(select) => self.selected(label, select),
            _ => Ok(Reply::Done),
        }
    }

    /// The answer to a query over the tables and views, at a label.
    #[tactic(auto, using(crate::proofs::Selecting::table_told, crate::proofs::Selecting::fault_told, crate::proofs::Selecting::query_keyed, crate::proofs::Selecting::views_keyed, crate::proofs::Writing::fit_made, crate::proofs::Sound::fit_rows))]
    fn selected(&self, label: &Label, select: &BoundSelect) -> Result<Reply, Fault>
        requires narrow { IsTrue (nat_le (length select.now.sources) 4) }
        requires fits { IsTrue (query_fits self.now.public select.now) }
        requires made { AreMade (length self.now.public.tags) label.now }
        ensures told { IfOk result (λ reply.
            select_reply self.now.public self.now.rows label.now select.now ≡ reply) }
        ensures refused { IfErr result (λ fault. (fault ≡ NoMemory)
            ⊎ (select_reply self.now.public self.now.rows label.now select.now ≡ Refused fault)) }
    {
        let catalog = self.public.catalog();
        // A look at the catalog also says that the public state fits.
        let _ = catalog.view(ViewId(0));
        let reading = Reading {
            alloc: self.alloc,
            tags: catalog.tags(),
            names: self.public.names(),
            label,
        };
        let views = CatalogViews { catalog };
        match query(&reading, self.rows, &views, select) {
            Ok(rows) => Ok(Reply::Rows(Table {
                columns: select.items.len() as u64,
                rows,
            })),
            Err(fault) => Err(view_fault(fault)),
        }
    }
}

/// The refusal that a fault of a SELECT is.
fn view_fault(fault: ViewFault) -> Fault
    ensures { result ≡ view_fault fault }
{
    match fault {
        ViewFault::ViewAuthority => Fault::ViewAuthority,
        ViewFault::OutOfRange => Fault::OutOfRange,
        ViewFault::OutOfMemory => Fault::OutOfMemory,
    }
}
