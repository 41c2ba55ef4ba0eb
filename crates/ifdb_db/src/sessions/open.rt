// The sessions that aren't over.
ghost use Rattle.std.specs.Prelude.{◌≡◌, ◌-◌, true, slice_set};
ghost use Rattle.ifdb_db.specs.Sessions.{client_at, IsSessionOver};

use super::Sessions;
use crate::OutOfMemory;
use crate::session::Session;
use indexmap::IndexMap;
use std::alloc::Global;
use std::marker::Model;
use std::snapshot::Snapshot;

/// The sessions that aren't over, as those of connections, which come and go: each that is over takes no memory.
///
/// Contracts see the clients of all that were ever opened, as those that are over were then.
#[derive(Drop)]
pub struct OpenSessions {
    kept: IndexMap<u64, Session>,
    /// One for each session that was opened. A snapshot has no bytes: contracts alone see what it is of.
    over: Vec<Snapshot<Session>>,
}

impl Model for OpenSessions {
    ghost use Rattle.std.specs.Prelude.{List, nat_eq};
    ghost use Rattle.indexmap.specs.IndexMap.{get};
    ghost use Rattle.ifdb_db.specs.Client.{Client};
    ghost use Rattle.ifdb_db.specs.Sessions.{AreKept, by_number, shown_by};

    ghost Value = { List Client };

    ghost use Rattle.std.specs.Coded.{codes};
    ghost use Rattle.ifdb_bound.specs.contracts.condition.BoundCond as cond;
    ghost use Rattle.ifdb_bound.specs.contracts.expression.BoundExpr as expr;

    ghost coded = { Prim.hlevel (codes, cond.the_row.coded, expr.the_row.coded) };

    ghost view = { λ s. by_number (get nat_eq s.kept) (shown_by s.over.items) };

    ghost invariant = { λ s. AreKept (get nat_eq s.kept) (shown_by s.over.items) };
}

impl Sessions for OpenSessions {
    ghost clients = { λ s. s };

    fn none(alloc: Global) -> Self {
        OpenSessions {
            kept: IndexMap::new(alloc),
            over: Vec::new(alloc),
        }
    }

    fn count(&self) -> u64 {
        self.over.len() as u64
    }

    fn find(&self, n: u64) -> Option<&Session> {
        self.kept.get(&n)
    }

    fn replace(&mut self, n: u64, session: Session) -> Session {
        if session.is_over() {
            self.forget(n, &session)
        } else {
            self.change(n, session)
        }
    }

    fn add(&mut self, session: Session) -> Result<(), OutOfMemory> {
        self.kept.reserve(1)?;
        self.over.push(Snapshot::of(&session))?;
        let n = self.over.len() as u64;
        self.kept.insert(n, session).unwrap();
        Ok(())
    }
}

impl OpenSessions {
    /// Puts a session in the place of an open one, which is given.
    fn change(&mut self, n: u64, session: Session) -> Session
        requires { (client_at self.old n).is_open ≡ true }
        ensures put { self.new ≡ slice_set self.old (n - 1) session }
        ensures before { result ≡ client_at self.old n }
    {
        let before = self.kept.insert(n, session).unwrap();
        before.unwrap()
    }

    /// Takes an open session out, which is over as another is. Gives its memory back.
    fn forget(&mut self, n: u64, session: &Session) -> Session
        requires is_open { (client_at self.old n).is_open ≡ true }
        requires is_over { IsSessionOver session.now }
        ensures put { self.new ≡ slice_set self.old (n - 1) session.now }
        ensures before { result ≡ client_at self.old n }
    {
        self.over[(n - 1) as usize] = Snapshot::of(session);
        self.kept.swap_remove(&n).unwrap()
    }
}
