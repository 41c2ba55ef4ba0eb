// Recorded entries, made again at a restart.
ghost use Rattle.std.specs.Prelude.{◌≡◌, Err, OnErr, OnOk, length};
ghost use Rattle.ifdb_db.specs.Redoing.{IsMadeAgain, IsUnfit};

use super::Room;
use crate::db::RedoFault;
use crate::sessions::Sessions;
use ifdb_redo::RedoRecord;

impl<S: Sessions> Room<S> {
    /// Makes a recorded entry again, whatever the record says, if it fits what the entries before it left: before the first session is
    /// opened. A public change is asked for by its line, and a commit is installed once its rows, labels and references are tested.
    /// Costs what the entry cost at first, but for the search of its rows.
    ///
    /// # Errors
    /// `DoesNotFit` only where the record restores no log behind what the room stands for; `OutOfMemory`. Whatever the error, all is
    /// as before.
    #[tactic(auto, using(crate::proofs::Restoring::nobody_held, crate::proofs::Restoring::made_again, crate::proofs::Restoring::not_made_again))]
    pub fn redo(&mut self, recorded: RedoRecord) -> Result<(), RedoFault>
        requires nobody { length self.old.clients ≡ 0 }
        ensures done { OnOk result (IsMadeAgain self.old self.new recorded) }
        ensures unfit { result ≡ Err RedoFault.DoesNotFit → IsUnfit self.old recorded }
        ensures clients { self.new.clients ≡ self.old.clients }
        ensures err { OnErr result (self.new ≡ self.old) }
    {
        self.is_sound();
        self.db.redo(recorded)
    }
}
