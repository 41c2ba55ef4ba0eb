// Contents in versions.
ghost use Rattle.std.specs.Prelude.{◌≡◌, ◌≤◌, ◌+◌, ◌-◌, ◌*◌, ◌^◌, [], length, if◌then◌else◌, IfOk, IfSome, IsTrue, None};
ghost use Rattle.ifdb_row.specs.ByReference.{option_row};
ghost use Rattle.ifdb_row.specs.Content.{after, rising};
ghost use Rattle.ifdb_row.specs.Questions.{first_row_from};
ghost use Rattle.ifdb_store.specs.Links.{are_links};

use crate::links::{are_near, first_child, links_after, writes_after};
use crate::steps::Steps;
use crate::tree::Tree;
use ifdb_row::{Edge, OutOfMemory, RowRef, Rows, Run, SlotRef, Writes};
use ifdb_value::Shared;
use std::alloc::Global;
use std::marker::Model;
use std::sync::ledger::Ledger;

/// How many writes are tried in place. What more of them make of a part mostly doesn't fit into one, and is then made in vain.
const FEW_WRITES: usize = 16;

/// Rows, and the links from their parents to them.
#[derive(Drop)]
struct Body {
    rows: Tree,
    links: Tree,
}

impl Body {
    /// Puts writes into the rows as `Tree::put` does, and the links that follow beside them. Where memory is refused, the answer
    /// is no.
    fn put(&mut self, alloc: Global, writes: &Writes) -> bool
        requires { IsTrue (are_links self.old.links self.old.rows) }
        ensures rows { self.new.rows
            ≡ (if result then after self.old.rows writes.now else self.old.rows) }
        ensures links { IsTrue (are_links self.new.links self.new.rows) }
    {
        let Ok(links) = self.links_after(alloc, writes) else {
            return false;
        };
        let done = self.rows.put(alloc, writes);
        if done {
            self.links = links;
        }
        done
    }

    /// The links after writes to the rows.
    fn links_after(&self, alloc: Global, writes: &Writes) -> Result<Tree, OutOfMemory>
        requires { IsTrue (are_links self.now.links self.now.rows) }
        ensures { IfOk result (λ links. IsTrue (are_links links (after self.now.rows writes.now))) }
    {
        let following = writes_after(alloc, self.linked_rows(), writes.items())?;
        links_after(alloc, self.links(), &following)
    }

    /// The rows, if any of them has a link.
    fn linked_rows(&self) -> Option<&Tree>
        ensures { IsTrue (rising self.now.rows) }
    {
        // Its limbs also say that the rows rise.
        let _ = self.rows.limbs();
        if self.links.limbs().is_empty() {
            None
        } else {
            Some(&self.rows)
        }
    }

    /// The links.
    fn links(&self) -> &Tree
        ensures links { result.now ≡ self.now.links }
        ensures rising { IsTrue (rising result.now) }
    {
        let _ = self.links.limbs();
        &self.links
    }
}

/// Rows in the order of their slots, each slot once. A later version is a content of its own, which shares what it has in common
/// with this one, or this one with other rows: `put` changes only what nobody else holds, so whoever reads a content that is
/// shared goes on reading it. Contracts see the list of the rows.
#[derive(Drop)]
pub struct Content {
    body: Shared<Body>,
}

impl Model for Content {
    ghost use Rattle.std.specs.Prelude.{List, IsTrue};
    ghost use Rattle.ifdb_row.specs.declared.row.Row.{Row};
    ghost use Rattle.ifdb_store.specs.Links.{are_links};

    ghost Value = { List Row };

    ghost view = { λ c. c.body.rows };

    ghost invariant = { λ c. IsTrue (are_links c.body.links c.body.rows) };
}

impl Content {
    /// No rows.
    pub fn new(alloc: Global) -> Result<Content, OutOfMemory>
        ensures { IfOk result (λ c. c ≡ []) }
    {
        let rows = Tree::new(alloc)?;
        let links = rows.share()?;
        Content::of(alloc, rows, links)
    }

    /// The content of these rows, with their links.
    fn of(alloc: Global, rows: Tree, links: Tree) -> Result<Content, OutOfMemory>
        requires { IsTrue (are_links links rows) }
        ensures { IfOk result (λ c. c ≡ rows) }
    {
        Ok(Content {
            body: Shared::new(alloc, Body { rows, links })?,
        })
    }

    /// The same content, shared. `OutOfMemory` comes where it has too many owners; it takes no memory.
    pub fn share(&self) -> Result<Content, OutOfMemory>
        ensures { IfOk result (λ c. c ≡ self.now) }
    {
        Ok(Content {
            body: self.body.share()?,
        })
    }

    /// The content after writes. What the writes don't touch is shared.
    pub fn after(&self, alloc: Global, writes: &Writes) -> Result<Content, OutOfMemory>
        ensures { IfOk result (λ c. c ≡ after self.now writes.now) }
    {
        let links = self.body.get().links_after(alloc, writes)?;
        let rows = self.rows().after(alloc, writes)?;
        Content::of(alloc, rows, links)
    }

    /// Puts a few writes into the rows in place, and copies only what somebody else holds or what doesn't take them as it lies.
    /// Where that isn't enough, or memory is refused, the answer is no and the rows are as before.
    pub fn put(&mut self, alloc: Global, writes: &Writes) -> bool
        ensures { self.new ≡ (if result then after self.old writes.now else self.old) }
    {
        if writes.len() > FEW_WRITES {
            return false;
        }
        match self.body.get_mut() {
            Some(body) => body.put(alloc, writes),
            None => false,
        }
    }

    /// How many rows it has; `None` where they are too many for the type. In time the number of its pages.
    pub fn count(&self) -> Option<u64>
        ensures some { IfSome result (λ n. n ≡ length self.now) }
        ensures none { result ≡ None → 2 ^ 64 ≤ length self.now }
    {
        self.rows().count()
    }

    /// The first row from an edge on. Each comparison of slots is a step, and for n rows there are s steps with 2^s at most
    /// 4 * (n + 1)^2.
    pub fn seek<L: Ledger>(&self, edge: &Edge<'_>, steps: &mut Steps<L>) -> Option<RowRef<'_>>
        ensures row { option_row result ≡ first_row_from edge.now self.now }
        ensures more { steps.old ≤ steps.new }
        ensures cost { 2 ^ (steps.new - steps.old) ≤ 4 * (length self.now + 1) ^ 2 }
    {
        self.rows().seek(edge, steps)
    }

    /// The rows.
    fn rows(&self) -> &Tree
        ensures rows { result.now ≡ self.now }
        ensures rising { IsTrue (rising self.now) }
    {
        let rows = &self.body.get().rows;
        // Its limbs also say that the rows rise.
        let _ = rows.limbs();
        rows
    }

    /// The links from the rows' parents to them.
    fn links(&self) -> &Tree
        ensures links { IsTrue (are_links result.now self.now) }
        ensures rising { IsTrue (rising result.now) }
    {
        let links = &self.body.get().links;
        let _ = links.limbs();
        links
    }
}

impl Rows for Content {
    ghost rows = { λ c. c };

    fn run_from(&self, edge: &Edge<'_>) -> Run<'_> {
        self.rows().run_from(edge)
    }

    fn bound_to<'a>(&'a self, slot: SlotRef<'_>, after: Option<SlotRef<'a>>) -> Option<RowRef<'a>> {
        if are_near(self.rows(), after) {
            first_child(self.rows(), self.links(), slot, after)
        } else {
            self.rows().bound_to(slot, after)
        }
    }
}
