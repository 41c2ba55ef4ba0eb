// Nodes: parts side by side.
ghost use Rattle.std.specs.Prelude.{◌≡◌, ◌≤◌, ◌<◌, ◌+◌, ◌-◌, ◌^◌, ◌++◌, IfOk, IfSome, IsTrue, None, OnOk, length};
ghost use Rattle.std.specs.List.{flat_map, list_all};
ghost use Rattle.ifdb_row.specs.ByReference.{option_row, slot_of};
ghost use Rattle.ifdb_row.specs.Content.{after, rising};
ghost use Rattle.ifdb_row.specs.Questions.{IsRun, bound_behind, rows_from};
ghost use Rattle.ifdb_row.specs.Runs.{rows_in};
ghost use Rattle.ifdb_row.specs.Writes.{are_fitting, are_rising};
ghost use Rattle.ifdb_store.specs.Costs.{SearchedIn};
ghost use Rattle.ifdb_store.specs.InPlace.{IsPut};
ghost use Rattle.ifdb_store.specs.Pages.{are_full, are_nodes, front, in_nodes, is_full_node, is_node};

use crate::entry::Entry;
use crate::part::{Part, Regroup, bound_to, end_of, parts_after, put_in, run_from};
use crate::share::{add_shared, shared};
use crate::steps::Steps;
use ifdb_row::{Edge, OutOfMemory, RowRef, Run, SlotRef, Write};
use ifdb_value::Sequence;
use std::alloc::Global;
use std::marker::Model;
use std::sync::ledger::Ledger;

/// The most parts of a node.
const NODE_PARTS: usize = 32;

/// The fewest parts of a node, where it stands beside others.
const FULL_PARTS: usize = 16;

/// Neighbouring parts, from 1 to 32 of them, each full where there are several.
#[derive(Drop)]
pub(crate) struct Node<P: Part> {
    parts: Sequence<Entry<P>>,
}

impl<P: Part> Model for Node<P> {
    ghost use Rattle.std.specs.Prelude.{List, IsTrue};
    ghost use Rattle.ifdb_store.specs.Pages.{is_node};

    ghost Value = { List P };

    ghost view = { λ n. n.parts };

    ghost invariant = { λ n. IsTrue (is_node P.rows P.is_part P.is_full n.parts) };
}

impl<P: Part> Node<P> {
    /// A node of these parts.
    fn new(parts: Vec<Entry<P>>) -> Node<P>
        requires { IsTrue (is_node P.rows P.is_part P.is_full parts.items) }
        ensures { result ≡ parts.items }
    {
        Node {
            parts: Sequence::from_vec(parts),
        }
    }

    /// The parts.
    pub(crate) fn parts(&self) -> &[Entry<P>]
        ensures parts { result.now ≡ self.now }
        ensures some { 0 < length result.now }
        ensures few { length result.now ≤ 32 }
        ensures full { IsTrue (are_full P.is_full result.now) }
        ensures good { IsTrue (list_all P.is_part result.now) }
        ensures rising { IsTrue (rising (flat_map P.rows result.now)) }
    {
        self.parts.items()
    }

    /// Puts writes into its rows, if all are of one part and it takes them.
    pub(crate) fn put(&mut self, alloc: Global, writes: &[Write]) -> bool
        requires fitting { IsTrue (are_fitting writes.now) }
        requires rising { IsTrue (are_rising writes.now) }
        ensures rows { IsPut
            (flat_map P.rows self.old) (flat_map P.rows self.new) writes.now result }
        ensures node { IsTrue (is_node P.rows P.is_part P.is_full self.new) }
        ensures full { is_full_node self.new ≡ is_full_node self.old }
    {
        put_in(alloc, &mut self.parts, writes)
    }

    /// Whether it has at least 16 parts.
    pub(crate) fn is_full(&self) -> bool
        ensures { result ≡ is_full_node self.now }
    {
        self.parts().len() >= FULL_PARTS
    }

    /// Its first row's slot.
    pub(crate) fn slot(&self) -> SlotRef<'_>
        ensures { slot_of result ≡ front (flat_map P.rows self.now) }
    {
        self.parts()[0].get().slot()
    }

    /// This many and its rows; `None` where they are too many for the type. In time the number of its pages.
    pub(crate) fn count_on(&self, before: u64) -> Option<u64>
        ensures some { IfSome result (λ n. n ≡ before + length (flat_map P.rows self.now)) }
        ensures none { result ≡ None → 2 ^ 64 ≤ before + length (flat_map P.rows self.now) }
    {
        let parts = self.parts();
        let mut count = before;
        for part in parts {
            count = part.get().count_on(count)?;
        }
        Some(count)
    }

    /// Its first rows, as many as lie side by side.
    pub(crate) fn first_run(&self) -> Run<'_>
        ensures { IsRun (rows_in result) (flat_map P.rows self.now) }
    {
        self.parts()[0].get().first_run()
    }

    /// Its first rows from an edge on, as many as lie side by side. Each comparison of slots is a step.
    pub(crate) fn run_from<L: Ledger>(&self, edge: &Edge<'_>, steps: &mut Steps<L>) -> Run<'_>
        ensures run { IsRun (rows_in result) (rows_from edge.now (flat_map P.rows self.now)) }
        ensures more { steps.old ≤ steps.new }
        ensures cost { SearchedIn P.bounds self.now (2 ^ (steps.new - steps.old)) }
    {
        run_from(self.parts(), edge, steps)
    }

    /// Its first row bound to a slot whose own slot is behind another, or its first row bound to it.
    pub(crate) fn bound_to<'a>(
        &'a self,
        slot: SlotRef<'_>,
        after: Option<SlotRef<'a>>,
    ) -> Option<RowRef<'a>>
        ensures { option_row result
            ≡ bound_behind slot.entry after.entry (flat_map P.rows self.now) }
    {
        bound_to(self.parts(), slot, after)
    }
}

impl<P: Regroup> Node<P> {
    /// The nodes that hold its rows after writes.
    pub(crate) fn after(&self, alloc: Global, writes: &[Write]) -> Result<Vec<Node<P>>, OutOfMemory>
        requires fitting { IsTrue (are_fitting writes.now) }
        requires rising { IsTrue (are_rising writes.now) }
        ensures rows { IfOk result (λ nodes. in_nodes P.rows nodes.items
            ≡ after (flat_map P.rows self.now) writes.now) }
        ensures nodes { IfOk result (λ nodes.
            IsTrue (are_nodes P.rows P.is_part P.is_full nodes.items)) }
    {
        let mut parts = Vec::with_capacity(alloc, self.parts().len() + 1)?;
        parts_after(alloc, self.parts(), writes, &mut parts)?;
        nodes_of(alloc, parts)
    }
}

/// The nodes of the rows of some parts: one where they fit into one, else as many as it takes, each at least half full.
pub(crate) fn nodes_of<P: Regroup>(
    alloc: Global,
    parts: Vec<Entry<P>>,
) -> Result<Vec<Node<P>>, OutOfMemory>
    requires good { IsTrue (list_all P.is_part parts.items) }
    requires rising { IsTrue (rising (flat_map P.rows parts.items)) }
    ensures rows { IfOk result (λ nodes. in_nodes P.rows nodes.items
        ≡ flat_map P.rows parts.items) }
    ensures nodes { IfOk result (λ nodes.
        IsTrue (are_nodes P.rows P.is_part P.is_full nodes.items)) }
    ensures full { IfOk result (λ nodes. IsTrue (are_full is_full_node nodes.items)) }
{
    let mut parts = parts;
    P::regroup(alloc, &mut parts)?;
    if parts.len() <= NODE_PARTS {
        one_node(alloc, parts)
    } else {
        several_nodes(alloc, &parts)
    }
}

/// A node of some parts, if there are any.
fn one_node<P: Part>(alloc: Global, parts: Vec<Entry<P>>) -> Result<Vec<Node<P>>, OutOfMemory>
    requires few { length parts.items ≤ 32 }
    requires full { IsTrue (are_full P.is_full parts.items) }
    requires good { IsTrue (list_all P.is_part parts.items) }
    requires rising { IsTrue (rising (flat_map P.rows parts.items)) }
    ensures rows { IfOk result (λ nodes. in_nodes P.rows nodes.items
        ≡ flat_map P.rows parts.items) }
    ensures nodes { IfOk result (λ nodes.
        IsTrue (are_nodes P.rows P.is_part P.is_full nodes.items)) }
    ensures full { IfOk result (λ nodes. IsTrue (are_full is_full_node nodes.items)) }
{
    let mut nodes = Vec::with_capacity(alloc, 1)?;
    if !parts.is_empty() {
        nodes.push(Node::new(parts))?;
    }
    Ok(nodes)
}

/// Full nodes of more parts than one may have.
fn several_nodes<P: Part>(alloc: Global, parts: &[Entry<P>]) -> Result<Vec<Node<P>>, OutOfMemory>
    requires many { 32 < length parts.now }
    requires full { IsTrue (are_full P.is_full parts.now) }
    requires good { IsTrue (list_all P.is_part parts.now) }
    requires rising { IsTrue (rising (flat_map P.rows parts.now)) }
    ensures rows { IfOk result (λ nodes. in_nodes P.rows nodes.items
        ≡ flat_map P.rows parts.now) }
    ensures nodes { IfOk result (λ nodes.
        IsTrue (are_nodes P.rows P.is_part P.is_full nodes.items)) }
    ensures full { IfOk result (λ nodes. IsTrue (list_all is_full_node nodes.items)) }
{
    let len = parts.len();
    let mut nodes = Vec::with_capacity(alloc, len / FULL_PARTS)?;
    let mut from = 0;
    while from < len {
        let to = end_of(from, len, NODE_PARTS);
        nodes.push(Node::new(shared(alloc, &parts[from..to], to - from)?))?;
        from = to;
    }
    Ok(nodes)
}

/// The parts of nodes, shared, behind others.
pub(crate) fn add_parts<P: Part>(node: &Node<P>, out: &mut Vec<Entry<P>>) -> Result<(), OutOfMemory>
    requires { IsTrue (list_all P.is_part out.old.items) }
    ensures rows { OnOk result (flat_map P.rows out.new.items
        ≡ flat_map P.rows out.old.items ++ flat_map P.rows node.now) }
    ensures good { OnOk result (IsTrue (list_all P.is_part out.new.items)) }
{
    add_shared(node.parts(), out)?;
    Ok(())
}
