// Twigs: pages side by side.
ghost use Rattle.std.specs.Prelude.{◌≡◌, ◌++◌, IfOk, IsTrue, OnOk};
ghost use Rattle.std.specs.List.{list_all};
ghost use Rattle.ifdb_row.specs.Content.{rising};
ghost use Rattle.ifdb_store.specs.Pages.{are_full, branch_rows, flat, in_nodes, is_full_node, is_page, is_twig};

use crate::entry::Entry;
use crate::node::{Node, add_parts, nodes_of};
use crate::page::Page;
use crate::part::{Part, Regroup, are_full};
use crate::search::Placed;
use crate::steps::Steps;
use ifdb_row::{Edge, OutOfMemory, RowRef, Run, SlotRef, Write};
use std::alloc::Global;
use std::marker::Model;
use std::sync::ledger::Ledger;

/// Neighbouring pages, from 1 to 32 of them.
#[derive(Drop)]
pub(crate) struct Twig {
    node: Node<Page>,
}

impl Model for Twig {
    ghost use Rattle.std.specs.Prelude.{List, IsTrue};
    ghost use Rattle.ifdb_row.specs.declared.row.Row.{Row};

    ghost Value = { List (List Row) };

    ghost view = { λ t. t.node };
}

impl Placed for Twig {
    ghost use Rattle.ifdb_store.specs.Pages.{flat, front};

    ghost place = { λ pages. front (flat pages) };

    ghost rows = { flat };

    fn slot(&self) -> SlotRef<'_> {
        self.node.slot()
    }
}

impl Part for Twig {
    ghost use Rattle.ifdb_store.specs.Pages.{is_full_node, is_twig, twig_begins};
    ghost use Rattle.ifdb_store.specs.Costs.{TwigBounds};

    ghost is_part = { is_twig };

    ghost is_full = { λ pages. is_full_node pages };

    ghost begins = { twig_begins };

    ghost bounds = { TwigBounds };

    fn after(
        &self,
        alloc: Global,
        writes: &[Write],
        out: &mut Vec<Entry<Twig>>,
    ) -> Result<(), OutOfMemory> {
        add_twigs(alloc, self.node.after(alloc, writes)?, out)
    }

    fn put(&mut self, alloc: Global, writes: &[Write]) -> bool {
        self.node.put(alloc, writes)
    }

    fn is_full(&self) -> bool {
        self.node.is_full()
    }

    fn count_on(&self, before: u64) -> Option<u64> {
        self.node.count_on(before)
    }

    fn first_run(&self) -> Run<'_> {
        self.node.first_run()
    }

    fn run_from<L: Ledger>(&self, edge: &Edge<'_>, steps: &mut Steps<L>) -> Run<'_> {
        self.node.run_from(edge, steps)
    }

    fn bound_to<'a>(&'a self, slot: SlotRef<'_>, after: Option<SlotRef<'a>>) -> Option<RowRef<'a>> {
        self.node.bound_to(slot, after)
    }
}

impl Regroup for Twig {
    fn regroup(alloc: Global, parts: &mut Vec<Entry<Twig>>) -> Result<(), OutOfMemory>
        requires parts { IsTrue (list_all is_twig parts.old.items) }
        requires rising { IsTrue (rising (branch_rows parts.old.items)) }
        ensures rows { OnOk result (branch_rows parts.new.items ≡ branch_rows parts.old.items) }
        ensures parts { OnOk result (IsTrue (list_all is_twig parts.new.items)) }
        ensures full { OnOk result (IsTrue (are_full is_full_node parts.new.items)) }
    {
        if !are_full(parts) {
            *parts = twigs_of(alloc, pages_of(alloc, parts)?)?;
        }
        Ok(())
    }
}

/// The twigs of some pages, each full where there are several.
pub(crate) fn twigs_of(
    alloc: Global,
    pages: Vec<Entry<Page>>,
) -> Result<Vec<Entry<Twig>>, OutOfMemory>
    requires good { IsTrue (list_all is_page pages.items) }
    requires rising { IsTrue (rising (flat pages.items)) }
    ensures rows { IfOk result (λ twigs. branch_rows twigs.items ≡ flat pages.items) }
    ensures good { IfOk result (λ twigs. IsTrue (list_all is_twig twigs.items)) }
    ensures full { IfOk result (λ twigs. IsTrue (are_full is_full_node twigs.items)) }
{
    let nodes = nodes_of(alloc, pages)?;
    let mut twigs = Vec::with_capacity(alloc, nodes.len())?;
    add_twigs(alloc, nodes, &mut twigs)?;
    Ok(twigs)
}

/// Adds the twigs of some nodes.
fn add_twigs(
    alloc: Global,
    nodes: Vec<Node<Page>>,
    out: &mut Vec<Entry<Twig>>,
) -> Result<(), OutOfMemory>
    ensures { OnOk result (out.new.items ≡ out.old.items ++ nodes.items) }
{
    for node in nodes {
        out.push(Entry::new(alloc, Twig { node })?)?;
    }
    Ok(())
}

/// The pages of twigs, shared.
fn pages_of(alloc: Global, twigs: &[Entry<Twig>]) -> Result<Vec<Entry<Page>>, OutOfMemory>
    requires { IsTrue (list_all is_twig twigs.now) }
    ensures rows { IfOk result (λ pages. flat pages.items ≡ branch_rows twigs.now) }
    ensures good { IfOk result (λ pages. IsTrue (list_all is_page pages.items)) }
{
    let mut pages = Vec::new(alloc);
    for twig in twigs {
        add_parts(&twig.get().node, &mut pages)?;
    }
    Ok(pages)
}
