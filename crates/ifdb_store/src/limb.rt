// Limbs: branches side by side.
ghost use Rattle.std.specs.Prelude.{◌≡◌, ◌++◌, IfOk, IsTrue, OnOk};
ghost use Rattle.std.specs.List.{list_all};
ghost use Rattle.ifdb_row.specs.Content.{rising};
ghost use Rattle.ifdb_store.specs.Pages.{are_full, in_nodes, is_branch, is_full_node, is_limb, limb_rows, rows_of};

use crate::branch::Branch;
use crate::entry::Entry;
use crate::node::{Node, add_parts, nodes_of};
use crate::part::{Part, Regroup, are_full};
use crate::search::Placed;
use crate::steps::Steps;
use ifdb_row::{Edge, OutOfMemory, RowRef, Run, SlotRef, Write};
use std::alloc::Global;
use std::marker::Model;
use std::sync::ledger::Ledger;

/// Neighbouring branches, from 1 to 32 of them.
#[derive(Drop)]
pub(crate) struct Limb {
    node: Node<Branch>,
}

impl Model for Limb {
    ghost use Rattle.std.specs.Prelude.{List, IsTrue};
    ghost use Rattle.ifdb_row.specs.declared.row.Row.{Row};

    ghost Value = { List (List (List (List Row))) };

    ghost view = { λ l. l.node };
}

impl Placed for Limb {
    ghost use Rattle.ifdb_store.specs.Pages.{front, limb_rows};

    ghost place = { λ branches. front (limb_rows branches) };

    ghost rows = { limb_rows };

    fn slot(&self) -> SlotRef<'_> {
        self.node.slot()
    }
}

impl Part for Limb {
    ghost use Rattle.ifdb_store.specs.Pages.{is_full_node, is_limb, limb_begins};
    ghost use Rattle.ifdb_store.specs.Costs.{LimbBounds};

    ghost is_part = { is_limb };

    ghost is_full = { λ branches. is_full_node branches };

    ghost begins = { limb_begins };

    ghost bounds = { LimbBounds };

    fn after(
        &self,
        alloc: Global,
        writes: &[Write],
        out: &mut Vec<Entry<Limb>>,
    ) -> Result<(), OutOfMemory> {
        add_limbs(alloc, self.node.after(alloc, writes)?, out)
    }

    fn put(&mut self, alloc: Global, writes: &[Write]) -> bool {
        self.node.put(alloc, writes)
    }

    fn is_full(&self) -> bool {
        self.node.is_full()
    }

    fn count_on(&self, before: u64) -> Option<u64> {
        self.node.count_on(before)
    }

    fn first_run(&self) -> Run<'_> {
        self.node.first_run()
    }

    fn run_from<L: Ledger>(&self, edge: &Edge<'_>, steps: &mut Steps<L>) -> Run<'_> {
        self.node.run_from(edge, steps)
    }

    fn bound_to<'a>(&'a self, slot: SlotRef<'_>, after: Option<SlotRef<'a>>) -> Option<RowRef<'a>> {
        self.node.bound_to(slot, after)
    }
}

impl Regroup for Limb {
    fn regroup(alloc: Global, parts: &mut Vec<Entry<Limb>>) -> Result<(), OutOfMemory>
        requires parts { IsTrue (list_all is_limb parts.old.items) }
        requires rising { IsTrue (rising (rows_of parts.old.items)) }
        ensures rows { OnOk result (rows_of parts.new.items ≡ rows_of parts.old.items) }
        ensures parts { OnOk result (IsTrue (list_all is_limb parts.new.items)) }
        ensures full { OnOk result (IsTrue (are_full is_full_node parts.new.items)) }
    {
        if !are_full(parts) {
            *parts = limbs_of(alloc, branches_of(alloc, parts)?)?;
        }
        Ok(())
    }
}

/// The limbs of some branches, each full where there are several.
pub(crate) fn limbs_of(
    alloc: Global,
    branches: Vec<Entry<Branch>>,
) -> Result<Vec<Entry<Limb>>, OutOfMemory>
    requires good { IsTrue (list_all is_branch branches.items) }
    requires rising { IsTrue (rising (limb_rows branches.items)) }
    ensures rows { IfOk result (λ limbs. rows_of limbs.items ≡ limb_rows branches.items) }
    ensures good { IfOk result (λ limbs. IsTrue (list_all is_limb limbs.items)) }
    ensures full { IfOk result (λ limbs. IsTrue (are_full is_full_node limbs.items)) }
{
    let nodes = nodes_of(alloc, branches)?;
    let mut limbs = Vec::with_capacity(alloc, nodes.len())?;
    add_limbs(alloc, nodes, &mut limbs)?;
    Ok(limbs)
}

/// Adds the limbs of some nodes.
fn add_limbs(
    alloc: Global,
    nodes: Vec<Node<Branch>>,
    out: &mut Vec<Entry<Limb>>,
) -> Result<(), OutOfMemory>
    ensures { OnOk result (out.new.items ≡ out.old.items ++ nodes.items) }
{
    for node in nodes {
        out.push(Entry::new(alloc, Limb { node })?)?;
    }
    Ok(())
}

/// The branches of limbs, shared.
fn branches_of(alloc: Global, limbs: &[Entry<Limb>]) -> Result<Vec<Entry<Branch>>, OutOfMemory>
    requires { IsTrue (list_all is_limb limbs.now) }
    ensures rows { IfOk result (λ branches. limb_rows branches.items ≡ rows_of limbs.now) }
    ensures good { IfOk result (λ branches. IsTrue (list_all is_branch branches.items)) }
{
    let mut branches = Vec::new(alloc);
    for limb in limbs {
        add_parts(&limb.get().node, &mut branches)?;
    }
    Ok(branches)
}
