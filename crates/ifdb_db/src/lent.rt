// A session in a transaction that is lent: it answers its lines by itself.
ghost use Rattle.std.specs.Prelude.{◌≡◌, true, IfOk, IfSome};
ghost use Rattle.std.specs.Option.{is_some};
ghost use Rattle.ifdb_db.specs.Lent.{IsAnsweredAlone, IsFoundAlone, IsLent};

use crate::OutOfMemory;
use crate::reading::read_line;
use crate::room::refusal_of;
use crate::session::Session;
use crate::told::Told;
use ifdb_label::Label;
use ifdb_wire::{Fault, Reply};
use std::alloc::Global;

impl Session {
    /// Answers a line in the session's transaction, from that alone: what others do meanwhile can't matter. `None` where the
    /// database has a part in the line, as in COMMIT, ROLLBACK and BYE, which then waits for it; nothing has changed.
    ///
    /// `OutOfMemory` changes nothing.
    pub fn ask(&mut self, line: &[u8]) -> Result<Option<Reply>, OutOfMemory>
        requires lent { IsLent self.old }
        ensures { IsAnsweredAlone line.now self.old self.new result }
    {
        match self.find(line) {
            Ok(reply) => Ok(reply),
            Err(fault) => {
                let reply = refusal_of(fault)?;
                Ok(Some(reply))
            }
        }
    }

    /// The answer to a line. An error changes nothing, and want of memory is one.
    fn find(&mut self, line: &[u8]) -> Result<Option<Reply>, Fault>
        requires lent { IsLent self.old }
        ensures { IsFoundAlone line.now self.old self.new result }
    {
        let Some(asker) = self.principal else {
            return Ok(None);
        };
        let Some(txn) = &mut self.txn else {
            return Ok(None);
        };
        let request = read_line(txn.alloc(), line)?;
        match txn.ask(asker, self.ceiling.as_ref(), &mut self.label, request)? {
            Told::Replies(reply) => Ok(Some(reply)),
            Told::Commits => Ok(None),
            Told::RollsBack => Ok(None),
            Told::Leaves => Ok(None),
        }
    }

    /// A copy of a session that said HELLO and whose transaction has written nothing; `None` where it didn't, or has no such
    /// transaction, or there is no memory.
    pub(crate) fn lend(&self) -> Option<Session>
        ensures copy { IfSome result (λ session. session ≡ self.now) }
        ensures greeted { IfSome result (λ _. is_some self.now.principal ≡ true) }
        ensures inside { IfSome result (λ _. is_some self.now.txn ≡ true) }
    {
        if self.principal.is_none() {
            return None;
        }
        let Some(begun) = &self.txn else {
            return None;
        };
        let Some(txn) = begun.lend() else {
            return None;
        };
        let Ok(label) = self.label.share() else {
            return None;
        };
        let Ok(ceiling) = copied(begun.alloc(), &self.ceiling) else {
            return None;
        };
        Some(Session {
            is_open: self.is_open,
            principal: self.principal,
            ceiling,
            label,
            txn: Some(txn),
        })
    }
}

/// A copy of a ceiling, if there is one.
fn copied(alloc: Global, ceiling: &Option<Label>) -> Result<Option<Label>, OutOfMemory>
    ensures { IfOk result (λ copy. copy ≡ ceiling.now) }
{
    match ceiling {
        Some(label) => {
            let label = label.share()?;
            Ok(Some(label))
        }
        None => Ok(None),
    }
}
