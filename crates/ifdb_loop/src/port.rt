// Ports: what they mean to a proof, and what their calls keep.
ghost use Rattle.std.specs.Prelude.{◌≡◌, ◌<◌, ◌≤◌, ℕ, List, length, take, Option, Some, Ok, IfOk, IfSome};
ghost use Rattle.std.specs.Io.KnownBytes.{append_known, prepend_known, IsAtEnd};
ghost use Rattle.ifdb_io.specs.Causes.{HasCause, Rose};
ghost use Rattle.ifdb_loop.specs.Moves.{moved};

use ifdb_io::Failed;

/// A connection whose calls never wait.
pub trait Port {
    /// The bytes that it gave so far, where the port tells them.
    ghost given: { Self → Option (List ℕ) };

    /// The bytes that are left, where the port tells them: those that have come and those that will.
    ghost left: { Self → Option (List ℕ) };

    /// The bytes that were written so far, where the port tells them.
    ghost written: { Self → Option (List ℕ) };

    /// How often reading has failed, up to 2^64 - 1.
    ghost unread: { Self → ℕ };

    /// How often writing has failed, up to 2^64 - 1.
    ghost unwritten: { Self → ℕ };

    /// Gives some of the bytes that have come, at most as many as the buffer has room for; none, where none has come. 0 at a
    /// buffer with room is the end of the input.
    ///
    /// # Errors
    /// `Failed` takes nothing.
    fn read(&mut self, buf: &mut [u8]) -> Result<Option<usize>, Failed>
        ensures bound { moved result ≤ length buf.new }
        ensures length { length buf.new ≡ length buf.old }
        ensures given { given self.new
            ≡ append_known (given self.old) (take (moved result) buf.new) }
        ensures left { left self.old
            ≡ prepend_known (take (moved result) buf.new) (left self.new) }
        ensures end { result ≡ Ok (Some 0) → 0 < length buf.old → IsAtEnd (left self.new) }
        ensures cause { HasCause (unread self.old) (unread self.new) result }
        ensures written { written self.new ≡ written self.old }
        ensures unwritten { unwritten self.new ≡ unwritten self.old };

    /// Takes the front of the piece, as far as there is room for it, and says how many bytes that were; none, where there is
    /// no room now.
    ///
    /// # Errors
    /// `Failed` takes nothing.
    fn write(&mut self, piece: &[u8]) -> Result<Option<usize>, Failed>
        ensures bound { moved result ≤ length piece.now }
        ensures some { IfOk result (λ o. IfSome o (λ n. 0 < length piece.now → 0 < n)) }
        ensures written { written self.new
            ≡ append_known (written self.old) (take (moved result) piece.now) }
        ensures cause { HasCause (unwritten self.old) (unwritten self.new) result }
        ensures given { given self.new ≡ given self.old }
        ensures left { left self.new ≡ left self.old }
        ensures unread { unread self.new ≡ unread self.old };

    /// Counts as a failure of reading that nothing has come for too long.
    fn expire_read(&mut self)
        ensures cause { Rose (unread self.old) (unread self.new) }
        ensures later { unread self.old ≤ unread self.new }
        ensures given { given self.new ≡ given self.old }
        ensures left { left self.new ≡ left self.old }
        ensures written { written self.new ≡ written self.old }
        ensures unwritten { unwritten self.new ≡ unwritten self.old };

    /// Counts as a failure of writing that the other side has taken nothing for too long.
    fn expire_write(&mut self)
        ensures cause { Rose (unwritten self.old) (unwritten self.new) }
        ensures later { unwritten self.old ≤ unwritten self.new }
        ensures given { given self.new ≡ given self.old }
        ensures left { left self.new ≡ left self.old }
        ensures written { written self.new ≡ written self.old }
        ensures unread { unread self.new ≡ unread self.old };
}
