// The store: the newest content, and the commits that somebody may still ask for.
ghost use Rattle.std.specs.Prelude.{◌≡◌, [], if◌then◌else◌, IfErr, IfOk, OnOk, OnErr};
ghost use Rattle.ifdb_row.specs.Content.{after};
ghost use Rattle.ifdb_store.specs.Kept.{committed, is_later, trimmed};

use crate::content::Content;
use ifdb_row::{Commit, OutOfMemory, Writes};
use std::alloc::Global;
use std::marker::Model;

/// The newest content, and the commits above a floor, the oldest first.
///
/// Contracts see the rows and the commits.
#[derive(Drop)]
pub struct Store {
    alloc: Global,
    content: Content,
    commits: Vec<Commit>,
}

impl Model for Store {
    ghost use Rattle.ifdb_store.specs.Kept.{Kept};

    ghost Value = { Kept };

    ghost view = { λ s. record { rows = s.content; commits = s.commits.items } };
}

impl Store {
    /// No rows, and no commits.
    pub fn new(alloc: Global) -> Result<Store, OutOfMemory>
        ensures { IfOk result (λ s. s ≡ record { rows = []; commits = [] }) }
    {
        Ok(Store {
            alloc,
            content: Content::new(alloc)?,
            commits: Vec::new(alloc),
        })
    }

    /// The newest content.
    pub fn content(&self) -> &Content
        ensures { result.now ≡ self.now.rows }
    {
        &self.content
    }

    /// The commits that are kept, the oldest first.
    pub fn commits(&self) -> &[Commit]
        ensures { result.now ≡ self.now.commits }
    {
        self.commits.as_slice()
    }

    /// The rows as they are now, whatever is committed later.
    pub fn snapshot(&self) -> Result<Content, OutOfMemory>
        ensures { IfOk result (λ c. c ≡ self.now.rows) }
    {
        self.content.share()
    }

    /// Makes writes, in place where nobody else holds what they touch. Where memory is refused, they come back, and the store is
    /// as before.
    pub fn commit(&mut self, stamp: u64, writes: Writes) -> Result<(), Writes>
        ensures done { OnOk result (self.new
            ≡ committed self.old (record { stamp = stamp; writes = writes })) }
        ensures back { IfErr result (λ back. back ≡ writes) }
        ensures err { OnErr result (self.new ≡ self.old) }
    {
        if self.commits.reserve(1).is_err() || !write(self.alloc, &mut self.content, &writes) {
            return Err(writes);
        }
        self.commits.push_reserved(Commit { stamp, writes });
        Ok(())
    }

    /// Makes writes whose rows somebody has made already: these take the place of the store's. Where memory is refused, both
    /// come back, and the store is as before.
    pub fn install(
        &mut self,
        stamp: u64,
        writes: Writes,
        rows: Content,
    ) -> Result<(), (Writes, Content)>
        requires made { rows ≡ after self.old.rows writes }
        ensures done { OnOk result (self.new
            ≡ committed self.old (record { stamp = stamp; writes = writes })) }
        ensures writes_back { IfErr result (λ back. back.0 ≡ writes) }
        ensures rows_back { IfErr result (λ back. back.1 ≡ rows) }
        ensures err { OnErr result (self.new ≡ self.old) }
    {
        if self.commits.reserve(1).is_err() {
            return Err((writes, rows));
        }
        self.content = rows;
        self.commits.push_reserved(Commit { stamp, writes });
        Ok(())
    }

    /// Gives up the commits up to a stamp. Takes no memory.
    pub fn trim(&mut self, oldest: u64)
        ensures rows { self.new.rows ≡ self.old.rows }
        ensures commits { self.new.commits ≡ trimmed oldest self.old.commits }
    {
        give_up(&mut self.commits, oldest);
    }
}

/// Makes writes to a content, in place where nobody else holds what they touch; where memory is refused, it is as before.
fn write(alloc: Global, content: &mut Content, writes: &Writes) -> bool
    ensures { content.new ≡ (if result then after content.old writes.now else content.old) }
{
    if content.put(alloc, writes) {
        return true;
    }
    match content.after(alloc, writes) {
        Ok(next) => {
            *content = next;
            true
        }
        Err(OutOfMemory) => false,
    }
}

/// Gives up the commits up to a stamp.
fn give_up(commits: &mut Vec<Commit>, oldest: u64)
    ensures { commits.new.items ≡ trimmed oldest commits.old.items }
{
    commits.retain(|commit| is_later(commit, oldest));
}

/// Whether a commit is later than a stamp.
fn is_later(commit: &Commit, stamp: u64) -> bool
    ensures { result ≡ is_later stamp commit.now }
{
    commit.stamp > stamp
}
