// The sessions of a room.
ghost use Rattle.std.specs.Prelude.{◌≡◌, ◌++◌, ◌-◌, ◌∷◌, [], false, true, List, None, IfSome, OnErr, OnOk, length, slice_set};
ghost use Rattle.ifdb_db.specs.Client.{Client};
ghost use Rattle.ifdb_db.specs.Sessions.{client_at};

mod all;
mod open;

use crate::OutOfMemory;
use crate::session::Session;
pub use all::AllSessions;
pub use open::OpenSessions;
use std::alloc::Global;

/// What a room keeps its sessions in, by number from 1.
///
/// Contracts see the clients of all that were ever opened. A session that is over is closed, and in no transaction.
pub trait Sessions {
    /// The clients of all sessions that were opened.
    ghost clients: { Self → List Client };

    /// No sessions. Takes no memory.
    fn none(alloc: Global) -> Self
        ensures { clients result ≡ [] };

    /// How many were opened.
    fn count(&self) -> u64
        ensures { result ≡ length (clients self.now) };

    /// The session of a number. `None` only where it is over, or was never opened.
    fn find(&self, n: u64) -> Option<&Session>
        ensures some { IfSome result (λ session. session.now ≡ client_at (clients self.now) n) }
        ensures closed { result ≡ None → (client_at (clients self.now) n).is_open ≡ false }
        ensures txn { result ≡ None → (client_at (clients self.now) n).txn ≡ None };

    /// Puts a session in the place of an open one, which is given. Takes no memory.
    fn replace(&mut self, n: u64, session: Session) -> Session
        requires { (client_at (clients self.old) n).is_open ≡ true }
        ensures put { clients self.new ≡ slice_set (clients self.old) (n - 1) session }
        ensures before { result ≡ client_at (clients self.old) n };

    /// One session more. `OutOfMemory` changes nothing.
    fn add(&mut self, session: Session) -> Result<(), OutOfMemory>
        ensures ok { OnOk result (clients self.new ≡ clients self.old ++ session ∷ []) }
        ensures err { OnErr result (clients self.new ≡ clients self.old) };
}
