// The first case that applies to a COMMIT.
ghost use Rattle.std.specs.Prelude.{◌≡◌, IsTrue, find, length};
ghost use Rattle.std.specs.Option.{option_copied};
ghost use Rattle.ifdb_label.specs.Tags.{AreMade};
ghost use Rattle.ifdb_row.specs.Verdict.{Shows, is_above, verdict, written_by};
ghost use Rattle.ifdb_store.specs.Kept.{trimmed};
ghost use Rattle.ifdb_store.specs.Later.{are_commits_made, are_writes_made};
ghost use Rattle.ifdb_commit.specs.Judging.{case_of, shown_by};

use crate::later::{LaterWrite, newer};
use ifdb_foreign::{LeftRow, first_broken, first_left};
use ifdb_label::{Label, Tags};
use ifdb_row::{Slot, Write, Writes};
use ifdb_store::Store;

/// How a COMMIT comes out, with what shows it.
#[derive(Clone, Copy)]
pub enum Judged<'a> {
    /// No case applies: the writes may be installed.
    Go,
    /// The label doesn't flow to that of this slot, the first such that is written.
    CommitLabel(&'a Slot),
    /// A commit after the BEGIN wrote this slot, which meets a write.
    Conflict(LaterWrite<'a>),
    /// The first written slot whose row is bound to a slot in which no row would stand.
    BrokenReference(&'a Slot),
    /// The first row that would be left without a parent.
    StillReferenced(LeftRow<'a>),
}

/// How a COMMIT of writes at a label comes out, over the rows and the commits after its BEGIN that the store keeps. The tags are all that
/// were made.
///
/// Takes no memory. Costs a test of labels for each write, a binary search among the writes for each slot that was written since the BEGIN, and
/// what `first_broken` and `first_left` cost; without writes, it looks at no commit.
pub fn verdict<'a>(
    store: &'a Store,
    tags: &Tags,
    begin: u64,
    writes: &'a Writes,
    label: &Label,
) -> Judged<'a>
    requires own_made { IsTrue (are_writes_made (length tags.now) writes.now) }
    requires later_made { IsTrue (are_commits_made (length tags.now) store.now.commits) }
    requires label_made { AreMade (length tags.now) label.now }
    ensures verdict { case_of result ≡
        verdict tags.now store.now.rows
        (written_by (trimmed begin store.now.commits)) writes.now label.now }
    ensures shown { Shows tags.now store.now.rows
        (trimmed begin store.now.commits) writes.now label.now
        (case_of result) (shown_by result) }
{
    if let Some(write) = first_above(tags, writes.items(), label) {
        return Judged::CommitLabel(&write.slot);
    }
    if let Some(newer) = newer(store, tags, begin, writes) {
        return Judged::Conflict(newer);
    }
    if let Some(write) = first_broken(store.content(), writes) {
        return Judged::BrokenReference(&write.slot);
    }
    match first_left(store.content(), writes) {
        Some(left) => Judged::StillReferenced(left),
        None => Judged::Go,
    }
}

/// The first write to whose slot's label the label doesn't flow.
fn first_above<'a>(tags: &Tags, writes: &'a [Write], label: &Label) -> Option<&'a Write>
    requires writes_made { IsTrue (are_writes_made (length tags.now) writes.now) }
    requires label_made { AreMade (length tags.now) label.now }
    ensures { option_copied result ≡ find (is_above tags.now label.now) writes.now }
{
    for write in writes {
        if is_above(tags, write, label) {
            return Some(write);
        }
    }
    None
}

/// Whether the label doesn't flow to that of the write's slot.
fn is_above(tags: &Tags, write: &Write, label: &Label) -> bool
    requires write_made { AreMade (length tags.now) write.now.slot.label }
    requires label_made { AreMade (length tags.now) label.now }
    ensures { result ≡ is_above tags.now label.now write.now }
{
    !label.flows(tags, &write.slot.label)
}
