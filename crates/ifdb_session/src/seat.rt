// A session as its connection has it, and what is told away from the room.
ghost use Rattle.std.specs.Prelude.{◌≡◌, [], true, false, None};
ghost use Rattle.ifdb_wire.specs.Text.{IsUnbounded, memory_text, reply_text};
ghost use Rattle.ifdb_db.specs.Lent.{IsLent};
ghost use Rattle.ifdb_session.specs.Seats.{IsAskedAlone, IsAskedOf, IsLentIf, IsShownAs};

use crate::work::Work;
use ifdb_db::{Look, Session};
use ifdb_wire::{Fault, Out, Reply};
use std::alloc::Global;

/// A session as its connection has it: in the room, or lent while its transaction goes on. Then lines take no turn, and contracts
/// know what was asked since.
#[derive(Drop)]
pub struct Seat {
    // What lines are read with.
    pub(crate) alloc: Global,
    // The session's number.
    pub(crate) number: u64,
    // The session, if the room has lent it.
    pub(crate) lent: Option<Session>,
    // The lines that it was asked since.
    pub(crate) work: Work,
}

impl Seat {
    /// The seat of a session that is in the room, whose lines take their memory from `alloc`.
    pub fn new(alloc: Global, number: u64) -> Seat
        ensures number { result.number ≡ number }
        ensures lent { result.lent ≡ None }
        ensures work { result.work.notes ≡ [] }
    {
        Seat {
            alloc,
            number,
            lent: None,
            work: Work::new(),
        }
    }

    /// Asks a line of a lent session, without the room; the reply stands in `out`. False where the room is to be asked: the
    /// session isn't lent, or the line ends its transaction.
    pub(crate) fn ask(&mut self, line: &[u8], out: &mut Out) -> bool
        requires lent { IsLentIf self.old.lent }
        ensures { IsAskedAlone line.now self.old self.new out.new.text result }
    {
        let Some(session) = &mut self.lent else {
            return false;
        };
        let Some(is_refused) = ask_lent(session, line, out) else {
            return false;
        };
        self.work = self.work.and(line, is_refused);
        true
    }
}

// Asks a line of a lent session, and says whether there was no memory for it; `None` where the room is to be asked.
fn ask_lent(session: &mut Session, line: &[u8], out: &mut Out) -> Option<bool>
    requires lent { IsLent session.old }
    ensures { IsAskedOf line.now session.old session.new out.new.text result }
{
    let Ok(answer) = session.ask(line) else {
        tell(out, &Reply::Refused(Fault::OutOfMemory));
        return Some(true);
    };
    let Some(reply) = answer else {
        return None;
    };
    let is_told = tell(out, &reply);
    Some(!is_told)
}

/// Tells what a look is answered, away from the room; want of memory is told in its place.
pub(crate) fn show(look: Look<'_>, out: &mut Out)
    ensures { IsShownAs look.entry out.new.text }
{
    match look.answer() {
        Ok(reply) => tell(out, &reply),
        Err(_) => tell(out, &Reply::Refused(Fault::OutOfMemory)),
    };
}

// Tells a reply on a connection. False is want of memory, which is told in its place.
fn tell(out: &mut Out, reply: &Reply) -> bool
    ensures told { result ≡ true → out.new.text ≡ reply_text None reply.now }
    ensures memory { result ≡ false → out.new.text ≡ memory_text None }
    ensures unbounded { result ≡ false → IsUnbounded reply.now }
{
    out.speak_for(None);
    out.put(reply)
}
