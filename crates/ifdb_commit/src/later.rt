// Conflicts with later commits: the last commit that wrote a slot which meets one's own writes.
ghost use Rattle.std.specs.Prelude.{◌≡◌, IsTrue, length, not};
ghost use Rattle.std.specs.List.{list_all};
ghost use Rattle.std.specs.Option.{option_copied};
ghost use Rattle.ifdb_label.specs.Tags.{AreMade};
ghost use Rattle.ifdb_row.specs.Reach.{skip};
ghost use Rattle.ifdb_row.specs.Verdict.{meets};
ghost use Rattle.ifdb_row.specs.Writes.{are_rising};
ghost use Rattle.ifdb_store.specs.Kept.{trimmed};
ghost use Rattle.ifdb_store.specs.Later.{are_commits_made, are_writes_made};
ghost use Rattle.ifdb_commit.specs.Meeting.{NamesConflict, is_behind_key, first_met, last_met, met_in, named};

use ifdb_label::Tags;
use ifdb_row::{Commit, Edge, Slot, Write, Writes};
use ifdb_store::Store;

/// A slot that a later commit wrote.
#[derive(Clone, Copy)]
pub struct LaterWrite<'a> {
    /// The slot.
    pub slot: &'a Slot,
    /// The stamp of a commit after the BEGIN that wrote it.
    pub stamp: u64,
}

/// A slot that a commit after the BEGIN wrote and that meets one's own writes: it is of the key of one of them, at a label that flows to
/// the write's. `None` exactly where no such slot was written; which one it is of several is left open.
///
/// Takes no memory. Costs a binary search among one's own writes for each slot that was written since the BEGIN; without writes of one's
/// own, it looks at no commit.
pub fn newer<'a>(
    store: &'a Store,
    tags: &Tags,
    begin: u64,
    writes: &Writes,
) -> Option<LaterWrite<'a>>
    requires own_made { IsTrue (are_writes_made (length tags.now) writes.now) }
    requires later_made { IsTrue (are_commits_made (length tags.now) store.now.commits) }
    ensures { NamesConflict tags.now (trimmed begin store.now.commits) writes.now (named result) }
{
    let own = writes.items();
    if own.is_empty() {
        return None;
    }
    last_met(tags, own, begin, store.commits())
}

/// The slot that the last commit with one after the BEGIN wrote, where it meets one's own writes.
fn last_met<'a>(
    tags: &Tags,
    own: &[Write],
    begin: u64,
    commits: &'a [Commit],
) -> Option<LaterWrite<'a>>
    requires own_made { IsTrue (are_writes_made (length tags.now) own.now) }
    requires rising { IsTrue (are_rising own.now) }
    requires later_made { IsTrue (are_commits_made (length tags.now) commits.now) }
    ensures { named result ≡ last_met tags.now own.now begin commits.now }
{
    let mut found: Option<LaterWrite<'a>> = None;
    for commit in commits {
        found = met_in(tags, own, begin, commit).or(found);
    }
    found
}

/// The first slot of the commit that meets one's own writes, if the commit is after the BEGIN.
fn met_in<'a>(tags: &Tags, own: &[Write], begin: u64, commit: &'a Commit) -> Option<LaterWrite<'a>>
    requires own_made { IsTrue (are_writes_made (length tags.now) own.now) }
    requires rising { IsTrue (are_rising own.now) }
    requires later_made { IsTrue (are_writes_made (length tags.now) commit.now.writes) }
    ensures { named result ≡ met_in tags.now own.now begin commit.now }
{
    if commit.stamp <= begin {
        return None;
    }
    match first_met(tags, own, commit.writes.items()) {
        Some(write) => Some(LaterWrite {
            slot: &write.slot,
            stamp: commit.stamp,
        }),
        None => None,
    }
}

/// The first of a commit's writes whose slot meets one's own.
fn first_met<'a>(tags: &Tags, own: &[Write], later: &'a [Write]) -> Option<&'a Write>
    requires own_made { IsTrue (are_writes_made (length tags.now) own.now) }
    requires rising { IsTrue (are_rising own.now) }
    requires later_made { IsTrue (are_writes_made (length tags.now) later.now) }
    ensures { option_copied result ≡ first_met tags.now own.now later.now }
{
    for write in later {
        if is_met(tags, own, &write.slot) {
            return Some(write);
        }
    }
    None
}

/// Whether a slot meets one's own writes.
fn is_met(tags: &Tags, own: &[Write], slot: &Slot) -> bool
    requires own_made { IsTrue (are_writes_made (length tags.now) own.now) }
    requires rising { IsTrue (are_rising own.now) }
    requires slot_made { AreMade (length tags.now) slot.now.label }
    ensures { result ≡ meets tags.now own.now slot.now }
{
    flows_to_some(tags, writes_from(own, slot), slot)
}

/// The writes from the slot's key on, found by binary search.
fn writes_from<'a>(own: &'a [Write], slot: &Slot) -> &'a [Write]
    requires { IsTrue (are_rising own.now) }
    ensures writes { result.now ≡ skip (is_behind_key slot.now) own.now }
    ensures from_key { IsTrue (list_all (λ w. not (is_behind_key slot.now w)) result.now) }
{
    let key = Edge::Key(slot.table, slot.key.items());
    let at = own.partition_point(|write| key.is_behind(write.slot.by_ref()));
    own.split_at(at).1
}

/// Whether the slot's label flows to that of a write of its key, where no write stands before the key.
fn flows_to_some(tags: &Tags, own: &[Write], slot: &Slot) -> bool
    requires own_made { IsTrue (are_writes_made (length tags.now) own.now) }
    requires rising { IsTrue (are_rising own.now) }
    requires from_key { IsTrue (list_all (λ w. not (is_behind_key slot.now w)) own.now) }
    requires slot_made { AreMade (length tags.now) slot.now.label }
    ensures { result ≡ meets tags.now own.now slot.now }
{
    for write in own {
        if !slot
            .by_ref()
            .is_of_key(write.slot.table, write.slot.key.items())
        {
            return false;
        }
        if slot.label.flows(tags, &write.slot.label) {
            return true;
        }
    }
    false
}
