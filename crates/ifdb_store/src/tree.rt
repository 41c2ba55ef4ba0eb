// Rows in pages, in versions.
ghost use Rattle.std.specs.Prelude.{◌≡◌, ◌≤◌, ◌<◌, ◌+◌, ◌-◌, ◌*◌, ◌^◌, [], length, if◌then◌else◌, IfOk, IfSome, IsTrue, None, OnOk};
ghost use Rattle.std.specs.List.{list_all};
ghost use Rattle.ifdb_row.specs.ByReference.{option_row};
ghost use Rattle.ifdb_row.specs.Content.{after, rising};
ghost use Rattle.ifdb_row.specs.Writes.{are_fitting, are_rising};
ghost use Rattle.ifdb_row.specs.Questions.{IsRun, first_row_from, rows_from};
ghost use Rattle.ifdb_row.specs.Runs.{rows_in};
ghost use Rattle.ifdb_store.specs.Pages.{are_full, is_full_node, is_limb, is_tree, rows_of};

use crate::branch::branches_of;
use crate::entry::Entry;
use crate::limb::{Limb, limbs_of};
use crate::page::cut;
use crate::part::{Part, Regroup, bound_to, parts_after, put_in, run_from};
use crate::put::rows_after;
use crate::steps::Steps;
use crate::twig::twigs_of;
use ifdb_row::{Edge, OutOfMemory, RowRef, Rows, Run, SlotRef, Write, Writes};
use ifdb_value::{Sequence, Shared};
use std::alloc::Global;
use std::marker::{Brand, Model};
use std::sync::ledger::{Blank, Ledger};

/// Rows in the order of their slots, each slot once, in pages, pages in twigs, twigs in branches, branches in limbs. A later
/// version is a tree of its own, which shares what it has in common with this one, or this one with other rows: `put` changes
/// only what nobody else holds, so no other version changes with it. Contracts see the list of the rows.
#[derive(Drop)]
pub(crate) struct Tree {
    limbs: Shared<Sequence<Entry<Limb>>>,
}

impl Model for Tree {
    ghost use Rattle.std.specs.Prelude.{List, IsTrue};
    ghost use Rattle.ifdb_row.specs.declared.row.Row.{Row};
    ghost use Rattle.ifdb_store.specs.Pages.{rows_of, is_tree};

    ghost Value = { List Row };

    ghost view = { λ c. rows_of c.limbs };

    ghost invariant = { λ c. IsTrue (is_tree c.limbs) };
}

impl Tree {
    /// No rows.
    pub(crate) fn new(alloc: Global) -> Result<Tree, OutOfMemory>
        ensures { IfOk result (λ c. c ≡ []) }
    {
        Ok(Tree {
            limbs: Shared::new(alloc, Sequence::new(alloc))?,
        })
    }

    /// The same rows, shared. `OutOfMemory` comes where it has too many owners; it takes no memory.
    pub(crate) fn share(&self) -> Result<Tree, OutOfMemory>
        ensures { IfOk result (λ c. c ≡ self.now) }
    {
        Ok(Tree {
            limbs: self.limbs.share()?,
        })
    }

    /// The rows after writes. What the writes don't touch is shared.
    pub(crate) fn after(&self, alloc: Global, writes: &Writes) -> Result<Tree, OutOfMemory>
        ensures { IfOk result (λ c. c ≡ after self.now writes.now) }
    {
        let limbs = limbs_after(alloc, self.limbs.get().items(), writes.items())?;
        Ok(Tree {
            limbs: Shared::new(alloc, Sequence::from_vec(limbs))?,
        })
    }

    /// Puts writes into the rows, and copies only what somebody else holds or what doesn't take them as it lies. Where the
    /// limbs would be others, or memory is refused, the answer is no and the rows are as before.
    pub(crate) fn put(&mut self, alloc: Global, writes: &Writes) -> bool
        ensures { self.new ≡ (if result then after self.old writes.now else self.old) }
    {
        match self.limbs.get_mut() {
            Some(limbs) => put_in_limbs(alloc, limbs, writes.items()),
            None => false,
        }
    }

    /// How many rows it has; `None` where they are too many for the type. In time the number of its pages.
    pub(crate) fn count(&self) -> Option<u64>
        ensures some { IfSome result (λ n. n ≡ length self.now) }
        ensures none { result ≡ None → 2 ^ 64 ≤ length self.now }
    {
        let limbs = self.limbs();
        let mut count = 0;
        for limb in limbs {
            count = limb.get().count_on(count)?;
        }
        Some(count)
    }

    /// The first row from an edge on. Each comparison of slots is a step, and for n rows there are s steps with 2^s at most
    /// 4 * (n + 1)^2.
    pub(crate) fn seek<L: Ledger>(
        &self,
        edge: &Edge<'_>,
        steps: &mut Steps<L>,
    ) -> Option<RowRef<'_>>
        ensures row { option_row result ≡ first_row_from edge.now self.now }
        ensures more { steps.old ≤ steps.new }
        ensures cost { 2 ^ (steps.new - steps.old) ≤ 4 * (length self.now + 1) ^ 2 }
    {
        self.seek_run(edge, steps).first()
    }

    /// The first rows from an edge on, as many as lie side by side. Each comparison of slots is a step.
    fn seek_run<L: Ledger>(&self, edge: &Edge<'_>, steps: &mut Steps<L>) -> Run<'_>
        ensures run { IsRun (rows_in result) (rows_from edge.now self.now) }
        ensures rising { IsTrue (rising self.now) }
        ensures more { steps.old ≤ steps.new }
        ensures cost { 2 ^ (steps.new - steps.old) ≤ 4 * (length self.now + 1) ^ 2 }
    {
        let limbs = self.limbs();
        if limbs.is_empty() {
            return Run::Loose(&[]);
        }
        run_from(limbs, edge, steps)
    }

    /// The same, with steps that nobody reads.
    fn uncounted_run<L: Ledger>(&self, edge: &Edge<'_>, blank: Blank) -> Run<'_>
        requires name { blank.name ≡ L.name }
        requires parts { blank.parts ≡ L.parts }
        requires some { 0 < blank.parts }
        ensures run { IsRun (rows_in result) (rows_from edge.now self.now) }
        ensures rising { IsTrue (rising self.now) }
    {
        let mut steps = Steps::<L>::new(blank);
        self.seek_run(edge, &mut steps)
    }

    /// The limbs.
    pub(crate) fn limbs(&self) -> &[Entry<Limb>]
        ensures rows { rows_of result.now ≡ self.now }
        ensures good { IsTrue (list_all is_limb result.now) }
        ensures full { IsTrue (are_full is_full_node result.now) }
        ensures rising { IsTrue (rising self.now) }
    {
        self.limbs.get().items()
    }
}

impl Rows for Tree {
    ghost rows = { λ c. c };

    fn run_from(&self, edge: &Edge<'_>) -> Run<'_> {
        self.uncounted_run::<Brand>(edge, Blank::new(1))
    }

    fn bound_to<'a>(&'a self, slot: SlotRef<'_>, after: Option<SlotRef<'a>>) -> Option<RowRef<'a>> {
        bound_to(self.limbs(), slot, after)
    }
}

/// Puts writes into the rows of some limbs, if all are of one limb and it takes them.
fn put_in_limbs(alloc: Global, limbs: &mut Sequence<Entry<Limb>>, writes: &[Write]) -> bool
    requires tree { IsTrue (is_tree limbs.old) }
    requires fitting { IsTrue (are_fitting writes.now) }
    requires rising { IsTrue (are_rising writes.now) }
    ensures rows { rows_of limbs.new
        ≡ (if result then after (rows_of limbs.old) writes.now else rows_of limbs.old) }
    ensures tree { IsTrue (is_tree limbs.new) }
{
    if limbs.is_empty() {
        return false;
    }
    put_in(alloc, limbs, writes)
}

/// The limbs that hold the rows of some limbs after writes.
#[tactic(auto, using(ifdb_row::proofs::ContentLaws::rising_after))]
fn limbs_after(
    alloc: Global,
    limbs: &[Entry<Limb>],
    writes: &[Write],
) -> Result<Vec<Entry<Limb>>, OutOfMemory>
    requires good { IsTrue (list_all is_limb limbs.now) }
    requires in_order { IsTrue (rising (rows_of limbs.now)) }
    requires fitting { IsTrue (are_fitting writes.now) }
    requires rising { IsTrue (are_rising writes.now) }
    ensures rows { IfOk result (λ all. rows_of all.items ≡ after (rows_of limbs.now) writes.now) }
    ensures good { IfOk result (λ all. IsTrue (list_all is_limb all.items)) }
    ensures full { IfOk result (λ all. IsTrue (are_full is_full_node all.items)) }
    ensures rising { IfOk result (λ all. IsTrue (rising (rows_of all.items))) }
{
    if limbs.is_empty() {
        return first_limbs(alloc, writes);
    }
    let mut all = Vec::with_capacity(alloc, limbs.len() + 1)?;
    parts_after(alloc, limbs, writes, &mut all)?;
    Limb::regroup(alloc, &mut all)?;
    Ok(all)
}

/// The limbs of what is written where no row stands.
fn first_limbs(alloc: Global, writes: &[Write]) -> Result<Vec<Entry<Limb>>, OutOfMemory>
    requires fitting { IsTrue (are_fitting writes.now) }
    requires rising { IsTrue (are_rising writes.now) }
    ensures rows { IfOk result (λ all. rows_of all.items ≡ after [] writes.now) }
    ensures good { IfOk result (λ all. IsTrue (list_all is_limb all.items)) }
    ensures full { IfOk result (λ all. IsTrue (are_full is_full_node all.items)) }
    ensures rising { IfOk result (λ all. IsTrue (rising (rows_of all.items))) }
{
    let rows = rows_after(alloc, Run::Loose(&[]), writes)?;
    let mut pages = Vec::new(alloc);
    cut(alloc, &rows, &mut pages)?;
    limbs_of(alloc, branches_of(alloc, twigs_of(alloc, pages)?)?)
}
