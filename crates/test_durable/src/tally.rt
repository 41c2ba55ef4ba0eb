//! A tiny object that threads take turns at, in the place of a database: a sum of amounts, each of which has a record.
ghost use Rattle.std.specs.Prelude.{◌≡◌, ◌≤◌, ◌<◌, ◌+◌, ◌^◌, ◌++◌, ◌∷◌, [], length, Some, true, false};
ghost use Rattle.ifdb_turn.specs.Passes.{history};
ghost use Rattle.ifdb_turn.specs.Turns.{object_of, pass_of, IsTurn};
ghost use Rattle.ifdb_durable.specs.Queues.{all_of};
ghost use Rattle.ifdb_durable.specs.Writing.{HasSeat, IsIdle, disk_of, taken, told};
ghost use Rattle.test_durable.specs.Tally.{EndsEntry, TallyStands, entry_of, record_of};

use ifdb_disk::Disk;
use ifdb_durable::{Gives, Mark, Naming, Queue, Writer};
use ifdb_journal::RecordKind;
use ifdb_turn::{NamedEntry, Object, Turn};

/// What one turn did: an amount came, or the sum was looked at. No value is made.
pub struct Entry {
    pub place: u64,
    pub amount: u64,
    pub is_look: bool,
}

/// The sum of all amounts, and the records that wait.
#[derive(Drop)]
pub struct Tally<B: Naming, D> {
    pub(crate) sum: u64,
    pub(crate) queue: Queue<B, D>,
}

impl<B: Naming, D> Object for Tally<B, D> {
    ghost use Rattle.test_durable.specs.Tally.{HasPlace, TallyStands, place_of};

    type Entry = Entry;

    ghost stands = { TallyStands };

    ghost right = { HasPlace };

    ghost root = { place_of };
}

impl<B: Naming, D> Tally<B, D> {
    /// The sum.
    pub fn sum(&self) -> u64
        ensures { result ≡ self.now.sum }
    {
        self.sum
    }

    // An amount comes, and its record behind the others. False where there is no room, and nothing has changed.
    pub(crate) fn add(&mut self, amount: u64) -> bool
        ensures sum { result ≡ true → self.new.sum ≡ self.old.sum + amount }
        ensures added { result ≡ true
            → all_of self.new.queue ≡ all_of self.old.queue ++ record_of amount ∷ [] }
        ensures refused { result ≡ false → self.new ≡ self.old }
    {
        let line = amount.to_be_bytes();
        if !self.queue.fits(&line) {
            return false;
        }
        let Some(sum) = self.sum.checked_add(amount) else {
            return false;
        };
        self.sum = sum;
        self.queue.push(RecordKind::Ask, 1, &line);
        true
    }
}

impl<B: Naming, D: Disk> Gives<B, D> for Tally<B, D> {
    fn give(&mut self, mark: &Mark<B, D>, writer: &mut Writer<B, D>) {
        writer.take(mark, &mut self.queue);
    }
}

// Ends a turn with an entry.
pub(crate) fn done_entry<B: Naming, D, N: NamedEntry<Entry>>(
    turn: Turn<'_, Tally<B, D>>,
    amount: u64,
    is_look: bool,
)
    requires turn { IsTurn turn }
    requires entry { N.entry ≡ Some (entry_of (history (pass_of turn)) amount is_look) }
    requires stands { TallyStands (object_of turn)
        (history (pass_of turn) ++ entry_of (history (pass_of turn)) amount is_look ∷ []) }
    ensures { EndsEntry turn.entry turn.exit.0.now amount is_look }
{
    turn.done::<N>();
}
