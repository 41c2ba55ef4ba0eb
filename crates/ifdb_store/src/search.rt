// Binary search for an edge.
ghost use Rattle.std.specs.Prelude.{◌≡◌, ◌≤◌, ◌+◌, ◌-◌, ◌*◌, ◌^◌, ◌<◌, List, IsTrue, length};
ghost use Rattle.ifdb_row.specs.declared.slot.Slot.{Slot as AnySlot};
ghost use Rattle.ifdb_row.specs.declared.row.Row.{Row as AnyRow};
ghost use Rattle.ifdb_row.specs.ByReference.{slot_of};
ghost use Rattle.ifdb_row.specs.Edges.{lies_before};
ghost use Rattle.ifdb_row.specs.Reach.{reach, is_parted};
ghost use Rattle.ifdb_store.specs.Marks.{edge_mark};

use crate::mark::Mark;
use crate::steps::Steps;
use ifdb_row::{Edge, RowRef, SlotRef};
use std::marker::Brand;
use std::sync::ledger::{Blank, Ledger};

/// Rows that stand by a slot.
pub(crate) trait Placed {
    /// The slot.
    ghost place: { Self → AnySlot };

    /// Its rows.
    ghost rows: { Self → List AnyRow };

    /// The slot that it stands by.
    fn slot(&self) -> SlotRef<'_>
        ensures { slot_of result ≡ place self.now };
}

/// An item of a list in the order of slots.
pub(crate) trait Item {
    /// The slot that it stands by.
    ghost spot: { Self → AnySlot };

    /// Whether it stands before an edge, of which this is the mark. It touches no row where the marks tell.
    fn is_before(&self, edge: &Edge<'_>, mark: &Mark) -> bool
        requires { mark.now ≡ edge_mark edge.now }
        ensures { result ≡ lies_before edge.now (spot self.now) };
}

impl Item for RowRef<'_> {
    ghost use Rattle.ifdb_row.specs.ByReference.{slot_of};
    ghost use Rattle.ifdb_row.specs.declared.row.RowRef.{RowRef};

    ghost spot = { λ (r : RowRef). slot_of r.slot };

    fn is_before(&self, edge: &Edge<'_>, _mark: &Mark) -> bool {
        edge.is_behind(self.slot)
    }
}

/// How many items stand before an edge, found by binary search. Each comparison is a step.
pub(crate) fn reach<T: Item, L: Ledger>(items: &[T], edge: &Edge<'_>, steps: &mut Steps<L>) -> usize
    requires { IsTrue (is_parted (λ x. lies_before edge.now (T.spot x)) items.now) }
    ensures reach { result ≡ reach (λ x. lies_before edge.now (T.spot x)) items.now }
    ensures within { result ≤ length items.now }
    ensures more { steps.old ≤ steps.new }
    ensures cost { 2 ^ (steps.new - steps.old) ≤ 2 * length items.now + 1 }
{
    let mark = Mark::of_edge(edge);
    let mut low = 0;
    let mut high = items.len();
    while low < high {
        let middle = low + (high - low) / 2;
        steps.tick();
        if items[middle].is_before(edge, &mark) {
            low = middle + 1;
        } else {
            high = middle;
        }
    }
    low
}

/// How many items stand before an edge, found by a search that nobody counts.
pub(crate) fn place<T: Item>(items: &[T], edge: &Edge<'_>) -> usize
    requires { IsTrue (is_parted (λ x. lies_before edge.now (T.spot x)) items.now) }
    ensures reach { result ≡ reach (λ x. lies_before edge.now (T.spot x)) items.now }
    ensures within { result ≤ length items.now }
{
    uncounted::<T, Brand>(items, edge, Blank::new(1))
}

/// The same, with a ledger for steps that nobody reads.
fn uncounted<T: Item, L: Ledger>(items: &[T], edge: &Edge<'_>, blank: Blank) -> usize
    requires name { blank.name ≡ L.name }
    requires parts { blank.parts ≡ L.parts }
    requires some { 0 < blank.parts }
    requires parted { IsTrue (is_parted (λ x. lies_before edge.now (T.spot x)) items.now) }
    ensures reach { result ≡ reach (λ x. lies_before edge.now (T.spot x)) items.now }
    ensures within { result ≤ length items.now }
{
    let mut steps = Steps::<L>::new(blank);
    reach(items, edge, &mut steps)
}
