// Branches: twigs side by side.
ghost use Rattle.std.specs.Prelude.{◌≡◌, ◌++◌, IfOk, IsTrue, OnOk};
ghost use Rattle.std.specs.List.{list_all};
ghost use Rattle.ifdb_row.specs.Content.{rising};
ghost use Rattle.ifdb_store.specs.Pages.{are_full, branch_rows, in_nodes, is_branch, is_full_node, is_twig, limb_rows};

use crate::entry::Entry;
use crate::node::{Node, add_parts, nodes_of};
use crate::part::{Part, Regroup, are_full};
use crate::search::Placed;
use crate::steps::Steps;
use crate::twig::Twig;
use ifdb_row::{Edge, OutOfMemory, RowRef, Run, SlotRef, Write};
use std::alloc::Global;
use std::marker::Model;
use std::sync::ledger::Ledger;

/// Neighbouring twigs, from 1 to 32 of them.
#[derive(Drop)]
pub(crate) struct Branch {
    node: Node<Twig>,
}

impl Model for Branch {
    ghost use Rattle.std.specs.Prelude.{List, IsTrue};
    ghost use Rattle.ifdb_row.specs.declared.row.Row.{Row};

    ghost Value = { List (List (List Row)) };

    ghost view = { λ b. b.node };
}

impl Placed for Branch {
    ghost use Rattle.ifdb_store.specs.Pages.{branch_rows, front};

    ghost place = { λ twigs. front (branch_rows twigs) };

    ghost rows = { branch_rows };

    fn slot(&self) -> SlotRef<'_> {
        self.node.slot()
    }
}

impl Part for Branch {
    ghost use Rattle.ifdb_store.specs.Pages.{is_full_node, is_branch, branch_begins};
    ghost use Rattle.ifdb_store.specs.Costs.{BranchBounds};

    ghost is_part = { is_branch };

    ghost is_full = { λ twigs. is_full_node twigs };

    ghost begins = { branch_begins };

    ghost bounds = { BranchBounds };

    fn after(
        &self,
        alloc: Global,
        writes: &[Write],
        out: &mut Vec<Entry<Branch>>,
    ) -> Result<(), OutOfMemory> {
        add_branches(alloc, self.node.after(alloc, writes)?, out)
    }

    fn put(&mut self, alloc: Global, writes: &[Write]) -> bool {
        self.node.put(alloc, writes)
    }

    fn is_full(&self) -> bool {
        self.node.is_full()
    }

    fn count_on(&self, before: u64) -> Option<u64> {
        self.node.count_on(before)
    }

    fn first_run(&self) -> Run<'_> {
        self.node.first_run()
    }

    fn run_from<L: Ledger>(&self, edge: &Edge<'_>, steps: &mut Steps<L>) -> Run<'_> {
        self.node.run_from(edge, steps)
    }

    fn bound_to<'a>(&'a self, slot: SlotRef<'_>, after: Option<SlotRef<'a>>) -> Option<RowRef<'a>> {
        self.node.bound_to(slot, after)
    }
}

impl Regroup for Branch {
    fn regroup(alloc: Global, parts: &mut Vec<Entry<Branch>>) -> Result<(), OutOfMemory>
        requires parts { IsTrue (list_all is_branch parts.old.items) }
        requires rising { IsTrue (rising (limb_rows parts.old.items)) }
        ensures rows { OnOk result (limb_rows parts.new.items ≡ limb_rows parts.old.items) }
        ensures parts { OnOk result (IsTrue (list_all is_branch parts.new.items)) }
        ensures full { OnOk result (IsTrue (are_full is_full_node parts.new.items)) }
    {
        if !are_full(parts) {
            *parts = branches_of(alloc, twigs_of(alloc, parts)?)?;
        }
        Ok(())
    }
}

/// The branches of some twigs, each full where there are several.
pub(crate) fn branches_of(
    alloc: Global,
    twigs: Vec<Entry<Twig>>,
) -> Result<Vec<Entry<Branch>>, OutOfMemory>
    requires good { IsTrue (list_all is_twig twigs.items) }
    requires rising { IsTrue (rising (branch_rows twigs.items)) }
    ensures rows { IfOk result (λ branches. limb_rows branches.items ≡ branch_rows twigs.items) }
    ensures good { IfOk result (λ branches. IsTrue (list_all is_branch branches.items)) }
    ensures full { IfOk result (λ branches. IsTrue (are_full is_full_node branches.items)) }
{
    let nodes = nodes_of(alloc, twigs)?;
    let mut branches = Vec::with_capacity(alloc, nodes.len())?;
    add_branches(alloc, nodes, &mut branches)?;
    Ok(branches)
}

/// Adds the branches of some nodes.
fn add_branches(
    alloc: Global,
    nodes: Vec<Node<Twig>>,
    out: &mut Vec<Entry<Branch>>,
) -> Result<(), OutOfMemory>
    ensures { OnOk result (out.new.items ≡ out.old.items ++ nodes.items) }
{
    for node in nodes {
        out.push(Entry::new(alloc, Branch { node })?)?;
    }
    Ok(())
}

/// The twigs of branches, shared.
fn twigs_of(alloc: Global, branches: &[Entry<Branch>]) -> Result<Vec<Entry<Twig>>, OutOfMemory>
    requires { IsTrue (list_all is_branch branches.now) }
    ensures rows { IfOk result (λ twigs. branch_rows twigs.items ≡ limb_rows branches.now) }
    ensures good { IfOk result (λ twigs. IsTrue (list_all is_twig twigs.items)) }
{
    let mut twigs = Vec::new(alloc);
    for branch in branches {
        add_parts(&branch.get().node, &mut twigs)?;
    }
    Ok(twigs)
}
