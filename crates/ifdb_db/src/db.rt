// What all see outside transactions.
ghost use Rattle.std.specs.Prelude.{◌≡◌, ◌≤◌, ◌^◌, [], None, IfOk, IfSome, IsTrue, length, option_copied, slice_get};
ghost use Rattle.ifdb_catalog.specs.Public.{opening as first_public, tag_names, tags_of};
ghost use Rattle.ifdb_db.specs.Answer.{answered, IsAnswered, IsStill};
ghost use Rattle.ifdb_db.specs.Desk.{settled};
ghost use Rattle.ifdb_db.specs.Kept.{IsHeld, IsSound};
ghost use Rattle.ifdb_db.specs.Looks.{client_of_sight};
ghost use Rattle.ifdb_db.specs.Noting.{IsNoted};
ghost use Rattle.ifdb_db.specs.Reading.{read_line};

mod answer;
mod end;
mod outside;
mod publish;
mod redo;
mod write;

use crate::OutOfMemory;
use crate::look::Sight;
use crate::note::Note;
use crate::reading::ReadLine;
use crate::session::Session;
use ifdb_label::{Tag, Tags};
use ifdb_snapshot::{SharedState, Snapshot};
use ifdb_store::Store;
use ifdb_value::Name;
use ifdb_wire::{Fault, Reply};
pub use redo::RedoFault;
use std::alloc::Global;
use std::marker::Model;

/// What all sessions see outside transactions: the public state, and the rows; and what it takes to judge a COMMIT: the commits that an open
/// transaction may meet, how many changes there were, and where the open transactions began.
///
/// It keeps no log. Contracts see a desk, which stands for a log.
#[derive(Drop)]
pub struct Db {
    alloc: Global,
    public: SharedState,
    store: Store,
    count: u64,
    begins: Vec<u64>,
}

impl Model for Db {
    ghost use Rattle.ifdb_db.specs.Desk.{Desk};
    ghost use Rattle.ifdb_db.specs.Kept.{IsSound};

    ghost Value = { Desk };

    ghost use Rattle.std.specs.Coded.{codes};
    ghost use Rattle.ifdb_bound.specs.contracts.condition.BoundCond as cond;
    ghost use Rattle.ifdb_bound.specs.contracts.expression.BoundExpr as expr;

    ghost coded = { Prim.hlevel (codes, cond.the_row.coded, expr.the_row.coded) };

    ghost view = { λ d. record {
      seen = record { public = d.public; rows = d.store.rows };
      commits = d.store.commits;
      count = d.count;
      begins = d.begins.items;
    } };

    ghost invariant = { λ d. IsSound (record {
      seen = record { public = d.public; rows = d.store.rows };
      commits = d.store.commits;
      count = d.count;
      begins = d.begins.items;
    }) };
}

impl Db {
    /// The public state before the first change, and no rows.
    pub fn opening(alloc: Global) -> Result<Db, OutOfMemory>
        ensures { IfOk result (λ db. db ≡ record {
          seen = record { public = first_public; rows = [] };
          commits = [];
          count = 0;
          begins = [];
        }) }
    {
        Ok(Db {
            alloc,
            public: SharedState::opening(alloc)?,
            store: Store::new(alloc)?,
            count: 0,
            begins: Vec::new(alloc),
        })
    }

    /// Answers a line of an open session, and notes what it adds to the log. An error is a refusal or want of memory, and
    /// changes nothing.
    pub fn ask(
        &mut self,
        session: &mut Session,
        line: ReadLine<'_>,
        note: &mut Note,
    ) -> Result<Reply, Fault>
        requires open { IsTrue session.old.is_open }
        requires kept { IsHeld self.old session.old }
        ensures answered { IsAnswered (answered self.old session.old (read_line line.entry))
            session.old session.new self.old self.new result }
        ensures kept { IsHeld self.new session.new }
        ensures still { IsStill session.old session.new self.old self.new result }
        ensures noted { IsNoted (answered self.old session.old (read_line line.entry))
            session.old.principal line.entry note.old note.new result }
    {
        let text = line.text();
        let request = line.into_request()?;
        self.answer(session, request, text, note)
    }

    /// What a session outside a transaction sees, if it said HELLO; `None` too where there is no memory.
    pub(crate) fn sight(&self, session: &Session) -> Option<Sight>
        requires open { IsTrue session.now.is_open }
        requires kept { IsHeld self.now session.now }
        ensures client { IfSome result (λ sight. session.now ≡ client_of_sight session.now.ceiling sight) }
        ensures seen { IfSome result (λ sight. sight.seen ≡ self.now.seen) }
    {
        self.is_sound();
        let Some(asker) = session.principal else {
            return None;
        };
        if session.in_transaction() {
            return None;
        }
        let Ok(label) = session.label.share() else {
            return None;
        };
        let Ok(public) = self.public.share() else {
            return None;
        };
        let Ok(rows) = self.store.content().share() else {
            return None;
        };
        Some(Sight {
            alloc: self.alloc,
            asker,
            label,
            public,
            rows,
        })
    }

    /// All tags.
    pub fn tags(&self) -> &Tags
        ensures { result.now ≡ tags_of self.now.seen.public }
    {
        self.public.get().catalog().tags()
    }

    /// The name of a tag, or `None` exactly where the tag isn't made.
    pub fn tag_name(&self, tag: Tag) -> Option<&Name>
        ensures { option_copied result ≡ slice_get (tag_names self.now.seen.public) tag }
    {
        self.public.get().catalog().tag_name(tag)
    }

    /// How many rows there are; `None` where they are too many for the type.
    pub fn count_rows(&self) -> Option<u64>
        ensures some { IfSome result (λ n. n ≡ length self.now.seen.rows) }
        ensures none { result ≡ None → 2 ^ 64 ≤ length self.now.seen.rows }
    {
        self.store.content().count()
    }

    /// How many entries the log has.
    pub fn count_entries(&self) -> u64
        ensures { result ≡ self.now.count }
    {
        self.count
    }

    /// What all see.
    fn seen(&self) -> Snapshot<'_>
        ensures seen { result ≡ self.now.seen }
    {
        Snapshot::new(self.alloc, self.public.get(), self.store.content())
    }

    /// What is true of each desk. Does nothing.
    pub(crate) fn is_sound(&self)
        ensures { IsSound self.now }
    {
        let _ = &self.alloc;
    }

    /// No commit is kept that no open transaction can meet. Does nothing.
    #[tactic(auto, using(crate::proofs::BeginLaws::is_settled))]
    fn is_settled(&self)
        ensures { settled self.now ≡ self.now }
    {
        self.is_sound();
    }
}
