// Parts of a content: what is found in them, and what they are after writes.
ghost use Rattle.std.specs.Prelude.{◌≡◌, ◌≤◌, ◌<◌, ◌+◌, ◌-◌, ◌*◌, ◌^◌, ◌/◌, ℕ, Bool, true, IfOk, IfSome, IsTrue, None, OnOk, length, take, drop};
ghost use Rattle.std.specs.List.{list_all, flat_map};
ghost use Rattle.ifdb_row.specs.ByReference.{option_row, slot_of};
ghost use Rattle.ifdb_row.specs.Edges.{lies_before};
ghost use Rattle.ifdb_row.specs.Runs.{rows_in};
ghost use Rattle.ifdb_row.specs.Writes.{are_fitting, are_rising};
ghost use Rattle.ifdb_row.specs.Content.{after, rising};
ghost use Rattle.ifdb_row.specs.Questions.{IsRun, bound_behind, rows_from};
ghost use Rattle.ifdb_row.specs.Reach.{reach};
ghost use Rattle.ifdb_store.specs.Pages.{AddsAfter, AddsAllAfter, AddsParts, Begins, Divides, Leaves, are_before, are_from, are_full};
ghost use Rattle.ifdb_store.specs.InPlace.{IsPut};
ghost use Rattle.ifdb_store.specs.Costs.{SearchedIn};

use crate::entry::Entry;
use crate::mark::Mark;
use crate::search::{Item, Placed, place, reach};
use crate::share::{Share, add_shared};
use crate::steps::Steps;
use ifdb_row::{Edge, OutOfMemory, RowRef, Run, SlotRef, Write};
use ifdb_value::Sequence;
use std::alloc::Global;
use std::sync::ledger::Ledger;

/// Some neighbouring rows of a content, at least one. It stands by its first row's slot.
pub(crate) trait Part: Placed + Drop {
    /// It is as a part has to be.
    ghost is_part: { Self → Bool };

    /// It is as full as a part beside others has to be.
    ghost is_full: { Self → Bool };

    /// What a search in it may cost: 2 ^ s, where it makes s comparisons.
    ghost bounds: { Self → ℕ → Type 0 };

    /// Adds the parts that hold the rows after writes.
    fn after(
        &self,
        alloc: Global,
        writes: &[Write],
        out: &mut Vec<Entry<Self>>,
    ) -> Result<(), OutOfMemory>
        requires part { IsTrue (is_part self.now) }
        requires fitting { IsTrue (are_fitting writes.now) }
        requires rising { IsTrue (are_rising writes.now) }
        requires parts { IsTrue (list_all is_part out.old.items) }
        ensures rows { OnOk result
            (AddsAfter Self.rows out.old out.new (Self.rows self.now) writes.now) }
        ensures parts { OnOk result (IsTrue (list_all is_part out.new.items)) };

    /// Puts writes into its rows, and copies only such parts of it as somebody else holds or as don't take them as they lie. Where
    /// it would have other parts or another first slot, or where memory is refused, the answer is no and the rows are as before.
    fn put(&mut self, alloc: Global, writes: &[Write]) -> bool
        requires part { IsTrue (is_part self.old) }
        requires fitting { IsTrue (are_fitting writes.now) }
        requires rising { IsTrue (are_rising writes.now) }
        ensures rows { IsPut (Self.rows self.old) (Self.rows self.new) writes.now result }
        ensures part { IsTrue (is_part self.new) }
        ensures full { is_full self.new ≡ is_full self.old };

    /// Whether it is full.
    fn is_full(&self) -> bool
        ensures { result ≡ is_full self.now };

    /// This many and its rows; `None` where they are too many for the type. In time the number of its pages.
    fn count_on(&self, before: u64) -> Option<u64>
        requires { IsTrue (is_part self.now) }
        ensures some { IfSome result (λ n. n ≡ before + length (Self.rows self.now)) }
        ensures none { result ≡ None → 2 ^ 64 ≤ before + length (Self.rows self.now) };

    /// Its first rows, as many as lie side by side.
    fn first_run(&self) -> Run<'_>
        requires { IsTrue (is_part self.now) }
        ensures { IsRun (rows_in result) (Self.rows self.now) };

    /// Its first rows from an edge on, as many as lie side by side. Each comparison of slots is a step.
    fn run_from<L: Ledger>(&self, edge: &Edge<'_>, steps: &mut Steps<L>) -> Run<'_>
        requires { IsTrue (is_part self.now) }
        ensures run { IsRun (rows_in result) (rows_from edge.now (Self.rows self.now)) }
        ensures more { steps.old ≤ steps.new }
        ensures cost { bounds self.now (2 ^ (steps.new - steps.old)) };

    /// Its first row bound to a slot whose own slot is behind another, or its first row bound to it.
    fn bound_to<'a>(&'a self, slot: SlotRef<'_>, after: Option<SlotRef<'a>>) -> Option<RowRef<'a>>
        requires { IsTrue (is_part self.now) }
        ensures { option_row result ≡ bound_behind slot.entry after.entry (Self.rows self.now) };

    /// It has a first row, by whose slot it stands.
    ghost begins: { (x : Self) → is_part x ≡ true → Begins (Self.rows x) (Self.place x) };
}

/// Parts that can be grouped anew.
pub(crate) trait Regroup: Part {
    /// Puts parts of the same rows in their place, each full where there are several.
    fn regroup(alloc: Global, parts: &mut Vec<Entry<Self>>) -> Result<(), OutOfMemory>
        requires parts { IsTrue (list_all Self.is_part parts.old.items) }
        requires rising { IsTrue (rising (flat_map Self.rows parts.old.items)) }
        ensures rows { OnOk result (flat_map Self.rows parts.new.items
            ≡ flat_map Self.rows parts.old.items) }
        ensures parts { OnOk result (IsTrue (list_all Self.is_part parts.new.items)) }
        ensures full { OnOk result (IsTrue (are_full Self.is_full parts.new.items)) };
}

/// Whether each part is full, where there are several.
pub(crate) fn are_full<P: Part>(parts: &[Entry<P>]) -> bool
    ensures { result ≡ are_full P.is_full parts.now }
{
    parts.len() < 2 || are_all_full(parts)
}

/// Whether each part is full.
fn are_all_full<P: Part>(parts: &[Entry<P>]) -> bool
    ensures { result ≡ list_all P.is_full parts.now }
{
    parts.iter().all(|part| part.get().is_full())
}

/// Where the next part of some items ends, where a part has no more than so many: half of them, until the rest fits.
pub(crate) fn end_of(from: usize, len: usize, most: usize) -> usize
    requires from { from < len }
    requires most { 2 ≤ most }
    ensures more { from < result }
    ensures within { result ≤ len }
    ensures few { result ≤ from + most }
    ensures rest { len ≤ from + most → result ≡ len }
    ensures half { from + most < len → result ≡ from + most / 2 }
{
    if len - from <= most {
        len
    } else {
        from + most / 2
    }
}

/// How many writes are of slots before this one.
fn writes_before(writes: &[Write], slot: SlotRef<'_>) -> usize
    requires { IsTrue (are_rising writes.now) }
    ensures within { result ≤ length writes.now }
    ensures before { IsTrue (are_before (slot_of slot.entry) (take result writes.now)) }
    ensures behind { IsTrue (are_from (slot_of slot.entry) (drop result writes.now)) }
{
    writes.partition_point(|write| write.slot.by_ref().is_before(slot))
}

/// How many of the writes are of the part at a place: all of them, where it is the last.
fn writes_at<P: Part>(parts: &[Entry<P>], at: usize, writes: &[Write]) -> usize
    requires there { at < length parts.now }
    requires parts { IsTrue (list_all P.is_part parts.now) }
    requires in_order { IsTrue (rising (flat_map P.rows parts.now)) }
    requires fitting { IsTrue (are_fitting writes.now) }
    requires rising { IsTrue (are_rising writes.now) }
    ensures within { result ≤ length writes.now }
    ensures last { at + 1 ≡ length parts.now → result ≡ length writes.now }
    ensures split { Divides P.rows parts.now at writes.now result }
{
    match parts.get(at + 1) {
        Some(next) => writes_before(writes, next.get().slot()),
        None => writes.len(),
    }
}

/// Adds the parts that hold a part's rows after writes. With none it is shared.
fn part_after<P: Part>(
    alloc: Global,
    part: &Entry<P>,
    writes: &[Write],
    out: &mut Vec<Entry<P>>,
) -> Result<(), OutOfMemory>
    requires part { IsTrue (P.is_part part.now) }
    requires fitting { IsTrue (are_fitting writes.now) }
    requires rising { IsTrue (are_rising writes.now) }
    requires parts { IsTrue (list_all P.is_part out.old.items) }
    ensures rows { OnOk result (AddsAfter P.rows out.old out.new (P.rows part.now) writes.now) }
    ensures parts { OnOk result (IsTrue (list_all P.is_part out.new.items)) }
{
    if writes.is_empty() {
        out.push(part.shared()?)?;
        return Ok(());
    }
    part.get().after(alloc, writes, out)
}

/// How many parts stand before all writes; not all parts.
fn untouched<P: Part>(parts: &[Entry<P>], writes: &[Write]) -> usize
    requires some { 0 < length parts.now }
    requires parts { IsTrue (list_all P.is_part parts.now) }
    requires in_order { IsTrue (rising (flat_map P.rows parts.now)) }
    requires rising { IsTrue (are_rising writes.now) }
    ensures within { result < length parts.now }
    ensures rows { Leaves P.rows parts.now writes.now result }
{
    match writes {
        [] => 0,
        [write, ..] => {
            let slot = write.slot.by_ref();
            let at = place(parts, &Edge::Behind(*slot.table, slot.key, slot.label));
            if at == 0 { 0 } else { at - 1 }
        }
    }
}

/// Adds the first parts, shared.
fn share_front<P: Part>(
    parts: &[Entry<P>],
    count: usize,
    out: &mut Vec<Entry<P>>,
) -> Result<(), OutOfMemory>
    requires within { count ≤ length parts.now }
    requires parts { IsTrue (list_all P.is_part parts.now) }
    requires good { IsTrue (list_all P.is_part out.old.items) }
    ensures rows { OnOk result (AddsParts P.rows out.old out.new (take count parts.now)) }
    ensures parts { OnOk result (IsTrue (list_all P.is_part out.new.items)) }
{
    add_shared(&parts[..count], out)?;
    Ok(())
}

/// Adds the parts from a place on, shared.
fn share_rest<P: Part>(
    parts: &[Entry<P>],
    from: usize,
    out: &mut Vec<Entry<P>>,
) -> Result<(), OutOfMemory>
    requires within { from ≤ length parts.now }
    requires parts { IsTrue (list_all P.is_part parts.now) }
    requires good { IsTrue (list_all P.is_part out.old.items) }
    ensures rows { OnOk result (AddsParts P.rows out.old out.new (drop from parts.now)) }
    ensures parts { OnOk result (IsTrue (list_all P.is_part out.new.items)) }
{
    let (_, rest) = parts.split_at(from);
    add_shared(rest, out)?;
    Ok(())
}

/// Adds the parts that hold the rows of some parts after writes. Those that no write touches are shared, without a look at
/// those behind all writes.
pub(crate) fn parts_after<P: Part>(
    alloc: Global,
    parts: &[Entry<P>],
    writes: &[Write],
    out: &mut Vec<Entry<P>>,
) -> Result<(), OutOfMemory>
    requires some { 0 < length parts.now }
    requires parts { IsTrue (list_all P.is_part parts.now) }
    requires in_order { IsTrue (rising (flat_map P.rows parts.now)) }
    requires fitting { IsTrue (are_fitting writes.now) }
    requires rising { IsTrue (are_rising writes.now) }
    requires good { IsTrue (list_all P.is_part out.old.items) }
    ensures rows { OnOk result (AddsAllAfter P.rows out.old out.new parts.now writes.now) }
    ensures parts { OnOk result (IsTrue (list_all P.is_part out.new.items)) }
{
    let first = untouched(parts, writes);
    share_front(parts, first, out)?;
    let mut rest = writes;
    for i in first..parts.len() {
        if rest.is_empty() {
            return share_rest(parts, i, out);
        }
        let (now, later) = rest.split_at(writes_at(parts, i, rest));
        part_after(alloc, &parts[i], now, out)?;
        rest = later;
    }
    Ok(())
}

/// Puts writes into the rows of some parts, if all are of one part and it takes them.
pub(crate) fn put_in<P: Part>(
    alloc: Global,
    parts: &mut Sequence<Entry<P>>,
    writes: &[Write],
) -> bool
    requires some { 0 < length parts.old }
    requires parts { IsTrue (list_all P.is_part parts.old) }
    requires in_order { IsTrue (rising (flat_map P.rows parts.old)) }
    requires fitting { IsTrue (are_fitting writes.now) }
    requires rising { IsTrue (are_rising writes.now) }
    ensures rows { IsPut
        (flat_map P.rows parts.old) (flat_map P.rows parts.new) writes.now result }
    ensures many { length parts.new ≡ length parts.old }
    ensures parts { IsTrue (list_all P.is_part parts.new) }
    ensures full { list_all P.is_full parts.new ≡ list_all P.is_full parts.old }
{
    let at = untouched(parts.items(), writes);
    if !are_within(parts.items(), at, writes) {
        return false;
    }
    let part = parts.at_mut(at);
    part.put(alloc, writes)
}

/// Whether writes that stand behind the parts before a place are all of the part there. Of one write marks tell most, and then
/// no row is touched.
fn are_within<P: Part>(parts: &[Entry<P>], at: usize, writes: &[Write]) -> bool
    requires there { at < length parts.now }
    requires parts { IsTrue (list_all P.is_part parts.now) }
    requires in_order { IsTrue (rising (flat_map P.rows parts.now)) }
    requires fitting { IsTrue (are_fitting writes.now) }
    requires rising { IsTrue (are_rising writes.now) }
    ensures { result ≡ true → Divides P.rows parts.now at writes.now (length writes.now) }
{
    match parts.get(at + 1) {
        Some(next) => is_behind(next, writes),
        None => true,
    }
}

/// Whether a part stands behind all writes.
fn is_behind<P: Part>(part: &Entry<P>, writes: &[Write]) -> bool
    requires { IsTrue (are_rising writes.now) }
    ensures { result ≡ true → IsTrue (are_before (P.place part.now) writes.now) }
{
    match writes {
        [write] => {
            let slot = write.slot.by_ref();
            let edge = Edge::Behind(*slot.table, slot.key, slot.label);
            !part.is_before(&edge, &Mark::of_edge(&edge))
        }
        _ => writes_before(writes, part.get().slot()) == writes.len(),
    }
}

/// The first rows from an edge on, of all parts, as many as lie side by side. Each comparison of slots is a step.
pub(crate) fn run_from<'a, P: Part, L: Ledger>(
    parts: &'a [Entry<P>],
    edge: &Edge<'_>,
    steps: &mut Steps<L>,
) -> Run<'a>
    requires some { 0 < length parts.now }
    requires parts { IsTrue (list_all P.is_part parts.now) }
    requires in_order { IsTrue (rising (flat_map P.rows parts.now)) }
    ensures run { IsRun (rows_in result) (rows_from edge.now (flat_map P.rows parts.now)) }
    ensures more { steps.old ≤ steps.new }
    ensures cost { SearchedIn P.bounds parts.now (2 ^ (steps.new - steps.old)) }
{
    let at = part_at(parts, edge, steps);
    let run = parts[at].get().run_from(edge, steps);
    if run.is_empty() {
        return run_at(parts, at + 1);
    }
    run
}

/// The last part that stands before an edge, or the first one. Each comparison of slots is a step.
fn part_at<P: Part, L: Ledger>(parts: &[Entry<P>], edge: &Edge<'_>, steps: &mut Steps<L>) -> usize
    requires some { 0 < length parts.now }
    requires parts { IsTrue (list_all P.is_part parts.now) }
    requires in_order { IsTrue (rising (flat_map P.rows parts.now)) }
    ensures place { result ≡ reach (λ x. lies_before edge.now (P.place x)) (drop 1 parts.now) }
    ensures within { result < length parts.now }
    ensures more { steps.old ≤ steps.new }
    ensures cost { 2 ^ (steps.new - steps.old) ≤ 2 * (length parts.now - 1) + 1 }
{
    let (_, others) = parts.split_at(1);
    reach(others, edge, steps)
}

/// The first rows of the parts from a place on.
fn run_at<P: Part>(parts: &[Entry<P>], at: usize) -> Run<'_>
    requires { IsTrue (list_all P.is_part parts.now) }
    ensures { IsRun (rows_in result) (flat_map P.rows (drop at parts.now)) }
{
    match parts.get(at) {
        Some(part) => part.get().first_run(),
        None => Run::Loose(&[]),
    }
}

/// The first row, of all parts, bound to a slot whose own slot is behind another, or the first row bound to it. Looks at each
/// row.
pub(crate) fn bound_to<'a, P: Part>(
    parts: &'a [Entry<P>],
    slot: SlotRef<'_>,
    after: Option<SlotRef<'a>>,
) -> Option<RowRef<'a>>
    requires { IsTrue (list_all P.is_part parts.now) }
    ensures { option_row result ≡ bound_behind slot.entry after.entry (flat_map P.rows parts.now) }
{
    for part in parts {
        let row = part.get().bound_to(slot, after);
        if row.is_some() {
            return row;
        }
    }
    None
}
