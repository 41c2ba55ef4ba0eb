// The room that connections share.
ghost use Rattle.std.specs.Prelude.{◌≡◌, ◌++◌, ℕ, [], false, List, None, IfErr, IfOk, IfSome, IsSome, OnErr, OnOk, length};
ghost use Rattle.ifdb_redo.specs.declared.record.RedoRecord.{RedoRecord};
ghost use Rattle.ifdb_wire.specs.Text.{memory_text, reply_text};
ghost use Rattle.ifdb_model.specs.Run.{asks, leaves, opens};
ghost use Rattle.ifdb_db.specs.Looks.{IsLookOf};
ghost use Rattle.ifdb_db.specs.Noting.{IsNotedIn};
ghost use Rattle.ifdb_db.specs.Room.{StandsFor};
ghost use Rattle.ifdb_db.specs.RoomSteps.{GoesBy, IsReplyTo};
ghost use Rattle.ifdb_history.specs.History.{first_state};
ghost use Rattle.ifdb_history.specs.declared.entry.Kind.TheVariants.{Opened as OpenedKind, Left as LeftKind};
ghost use Rattle.ifdb_session.specs.Counts.{counts_of, IsGlance};
ghost use Rattle.ifdb_session.specs.Endings.{capped};
ghost use Rattle.ifdb_session.specs.Records.{Forgets, HasRoom, records_in, records_of};
ghost use Rattle.ifdb_session.specs.Standing.{StandsForHistory};
ghost use Rattle.ifdb_session.specs.Starts.{start_of};
ghost use Rattle.ifdb_session.specs.Turns.{CountsTurn, HasCounted, IsAsked, IsCount, IsNextNumber, MayBeBack, with_lent};

use crate::counts::{Counts, Glance, counted};
use crate::{OutOfMemory, Records};
use ifdb_db::{Look, Note, ReadLine, ServedRoom, Session};
use ifdb_history::Entry;
use ifdb_turn::Object;
use ifdb_wire::{Fault, Out, Reply};
use std::alloc::Global;

/// What the turns of all connections are taken at: a room, which stands for the state that the history leaves, what is
/// counted of the history, and what records its entries.
#[derive(Drop)]
pub struct SharedRoom<Q> {
    pub(crate) room: ServedRoom,
    /// The records, in the order of the history.
    pub(crate) records: Q,
    /// How many entries the history has, up to 2^64 - 1.
    pub(crate) entries: u64,
    /// How many commits there were, up to 2^64 - 1.
    pub(crate) commits: u64,
    /// How many COMMITs were refused, up to 2^64 - 1.
    pub(crate) refused: u64,
}

/// What became of a line that a session asked.
#[derive(Clone, Copy, Debug, PartialEq, Eq)]
pub(crate) enum Asked {
    /// It was answered.
    Done {
        /// Whether the session is open still.
        is_open: bool,
        /// How many records of a journal were made so far.
        count: u64,
    },
    /// There was no memory for it.
    Refused {
        /// How many records of a journal were made so far.
        count: u64,
    },
    /// There was no memory for it, and its session is lent as before: nothing is counted.
    Kept,
}

impl<Q: Records> Object for SharedRoom<Q> {
    ghost use Rattle.ifdb_session.specs.Starts.{start_of};
    ghost use Rattle.ifdb_history.specs.History.{IsRight};
    ghost use Rattle.ifdb_session.specs.Standing.{StandsForHistory, root_of};

    type Entry = Entry;

    ghost stands = { StandsForHistory Q.Records };

    ghost right = { IsRight (start_of Q.first) };

    ghost root = { root_of };
}

impl<Q: Records + Drop> SharedRoom<Q> {
    /// The opening: the public state before the first change, no rows, no sessions, and no records. There was no log before.
    pub fn opening(alloc: Global, records: Q) -> Result<SharedRoom<Q>, OutOfMemory>
        requires none { Q.first ≡ [] }
        requires records { Q.has records [] }
        ensures { IfOk result (λ shared. StandsForHistory Q.Records shared []) }
    {
        let room = ServedRoom::opening(alloc)?;
        Ok(SharedRoom::resumed(room, records))
    }
}

impl<Q: Records> SharedRoom<Q> {
    /// A room that stands for the log that there was, without sessions, behind which nothing was recorded. Takes no memory.
    pub fn resumed(room: ServedRoom, records: Q) -> SharedRoom<Q>
        requires stands { StandsFor room (first_state (start_of Q.first)) }
        requires none { Q.has records [] }
        ensures { StandsForHistory Q.Records result [] }
    {
        SharedRoom {
            room,
            records,
            entries: 0,
            commits: 0,
            refused: 0,
        }
    }

    /// What the history comes to.
    pub fn counts(&self) -> Counts
        ensures { (h : List Entry) → StandsForHistory Q.Records self.now h
            → result ≡ counts_of Q.first h }
    {
        Counts {
            sessions: self.room.sessions(),
            entries: self.entries,
            commits: self.commits,
            refused: self.refused,
            rows: rows_in(&self.room),
        }
    }

    /// What recorded the entries: it has the records of the history.
    pub fn into_records(self) -> Q
        ensures { (h : List Entry) → StandsForHistory Q.Records self h
            → Q.has result (records_of Q.first h) }
    {
        let SharedRoom { records, .. } = self;
        records
    }

    /// Opens the next session, and gives its number. `OutOfMemory` changes nothing.
    pub(crate) fn open(&mut self) -> Result<u64, OutOfMemory>
        ensures opened { IfOk result (λ _. GoesBy self.old.room self.new.room opens) }
        ensures number { IfOk result (IsNextNumber self.old.room) }
        ensures counted { IfOk result (λ _. CountsTurn self.old.room OpenedKind self.old self.new) }
        ensures recorded { self.new.records ≡ self.old.records }
        ensures err { OnErr result (self.new ≡ self.old) }
    {
        self.room.open_next()?;
        self.entries = counted(self.entries, true);
        Ok(self.room.sessions())
    }

    /// Takes what a SELECT outside a transaction is answered from, so that its answer can come after the turn, and how many
    /// records of a journal were made so far. `Err` gives the line back, where it is none or there is no memory, and changes
    /// nothing.
    pub(crate) fn look<'a>(
        &mut self,
        n: u64,
        lent: &Option<Session>,
        line: ReadLine<'a>,
    ) -> Result<(Look<'a>, u64), ReadLine<'a>>
        ensures look { IfOk result (λ t. IsLookOf self.old.room n line.entry t.0) }
        ensures count { IfOk result (λ t. IsCount Q.Records self.new t.1) }
        ensures here { OnOk result (lent.now ≡ None) }
        ensures room { self.new.room ≡ self.old.room }
        ensures recorded { self.new.records ≡ self.old.records }
        ensures counted { OnOk result (HasCounted self.old self.new false false) }
        ensures back { IfErr result (λ back. back ≡ line.entry) }
        ensures err { OnErr result (self.new ≡ self.old) }
    {
        let None = lent else {
            return Err(line);
        };
        let look = self.room.look(n, line)?;
        self.entries = counted(self.entries, true);
        Ok((look, self.records.count()))
    }

    /// Asks a line for a session, which comes back if it was lent; the reply stands in `out`. Then the session is lent, if it is
    /// in a transaction that has written nothing, and there is memory.
    ///
    /// What the line adds to the log is recorded. `Refused` and `Kept` change nothing but that `Refused` is counted; the reply is
    /// error 20: there was no memory, or no room for the record.
    pub(crate) fn ask(
        &mut self,
        n: u64,
        lent: &mut Option<Session>,
        line: ReadLine<'_>,
        out: &mut Out,
    ) -> Asked
        requires { MayBeBack self.old.room n lent.old }
        ensures { IsAsked Q.Records n line.entry lent.old lent.new self.old self.new
            out.new.text result }
    {
        let mut note = self.room.note(self.records.limit());
        let before = self.glance(n, lent);
        let Ok(reply) = tell(&mut self.room, n, lent, line, &mut note, out) else {
            return self.refuse(lent);
        };
        record(&mut self.records, note);
        let after = self.glance(n, lent);
        self.entries = counted(self.entries, true);
        self.commits = counted(self.commits, before.has_committed(after, &reply));
        self.refused = counted(self.refused, before.has_refused(after, &reply));
        let count = self.records.count();
        if !self.room.is_open(n) {
            return Asked::Done {
                is_open: false,
                count,
            };
        }
        *lent = self.room.lend(n);
        Asked::Done {
            is_open: true,
            count,
        }
    }

    /// Drops a session without BYE, which comes back if it was lent.
    pub(crate) fn leave(&mut self, n: u64, lent: Option<Session>)
        requires { MayBeBack self.old.room n lent }
        ensures left { GoesBy (with_lent self.old.room n lent) self.new.room (leaves n) }
        ensures counted { CountsTurn (with_lent self.old.room n lent) (LeftKind n [])
            self.old self.new }
        ensures recorded { self.new.records ≡ self.old.records }
    {
        match lent {
            None => self.room.leave(n),
            Some(session) => self.room.leave_with(n, session),
        }
        self.entries = counted(self.entries, true);
    }

    // There was no memory for a line, which is counted unless the session is lent.
    fn refuse(&mut self, lent: &Option<Session>) -> Asked
        ensures room { self.new.room ≡ self.old.room }
        ensures recorded { self.new.records ≡ self.old.records }
        ensures refused { lent.now ≡ None
            → (count : ℕ) × (result ≡ Asked.Refused count) × IsCount Q.Records self.new count }
        ensures counted { lent.now ≡ None → HasCounted self.old self.new false false }
        ensures kept { IsSome lent.now → result ≡ Asked.Kept }
        ensures same { IsSome lent.now → self.new ≡ self.old }
    {
        if lent.is_some() {
            return Asked::Kept;
        }
        self.entries = counted(self.entries, true);
        Asked::Refused {
            count: self.records.count(),
        }
    }

    // Looks at the log, and at a session, which may be lent.
    fn glance(&self, n: u64, lent: &Option<Session>) -> Glance
        requires { MayBeBack self.now.room n lent.now }
        ensures { IsGlance (with_lent self.now.room n lent.now) n result }
    {
        let in_transaction = match lent {
            None => self.room.in_transaction(n),
            Some(session) => session.in_transaction(),
        };
        Glance {
            entries: self.room.count_entries(),
            in_transaction,
        }
    }
}

// Records what a note holds.
fn record<Q: Records>(records: &mut Q, note: Note)
    requires room { IfSome note.limit (HasRoom Q.Records records.old) }
    requires none { note.limit ≡ None → Forgets Q.Records records.old }
    ensures recorded { (rs : List RedoRecord)
        → Q.has records.old rs → Q.has records.new (rs ++ records_in note) }
    ensures none { note.limit ≡ None → Forgets Q.Records records.new }
{
    if let Some(text) = note.into_text() {
        records.push(text.items());
    }
}

// Asks a line, notes what it adds to the log, and tells the reply on a connection, which is given. A lent session comes back.
// Where there is no memory, or no room for the note, nothing changes, and error 20 is told.
fn tell(
    room: &mut ServedRoom,
    n: u64,
    lent: &mut Option<Session>,
    line: ReadLine<'_>,
    note: &mut Note,
    out: &mut Out,
) -> Result<Reply, OutOfMemory>
    requires { MayBeBack room.old n lent.old }
    ensures asked { OnOk result
        (GoesBy (with_lent room.old n lent.old) room.new (asks n line.entry)) }
    ensures told { IfOk result (IsReplyTo (with_lent room.old n lent.old) n line.entry) }
    ensures noted { OnOk result
        (IsNotedIn (with_lent room.old n lent.old) n line.entry note.old note.new) }
    ensures limit { note.new.limit ≡ note.old.limit }
    ensures text { IfOk result (λ r. out.new.text ≡ reply_text None r) }
    ensures back { OnOk result (lent.new ≡ None) }
    ensures err { OnErr result (room.new ≡ room.old) }
    ensures kept { OnErr result (lent.new ≡ lent.old) }
    ensures memory { OnErr result (out.new.text ≡ memory_text None) }
{
    let Some(session) = lent.take() else {
        return tell_there(room, n, line, note, out);
    };
    match room.resume(n, session, line, note, out) {
        Ok(reply) => Ok(reply),
        Err(session) => {
            *lent = Some(session);
            Err(OutOfMemory)
        }
    }
}

// The same of a session that is in the room.
fn tell_there(
    room: &mut ServedRoom,
    n: u64,
    line: ReadLine<'_>,
    note: &mut Note,
    out: &mut Out,
) -> Result<Reply, OutOfMemory>
    ensures asked { OnOk result (GoesBy room.old room.new (asks n line.entry)) }
    ensures told { IfOk result (IsReplyTo room.old n line.entry) }
    ensures noted { OnOk result (IsNotedIn room.old n line.entry note.old note.new) }
    ensures limit { note.new.limit ≡ note.old.limit }
    ensures text { IfOk result (λ r. out.new.text ≡ reply_text None r) }
    ensures err { OnErr result (room.new ≡ room.old) }
    ensures memory { OnErr result (out.new.text ≡ memory_text None) }
{
    out.speak_for(None);
    let Ok(reply) = room.reply_noted(n, line, note) else {
        out.put(&Reply::Refused(Fault::OutOfMemory));
        return Err(OutOfMemory);
    };
    if out.put(&reply) {
        Ok(reply)
    } else {
        Err(OutOfMemory)
    }
}

// How many rows there are, up to 2^64 - 1.
fn rows_in(room: &ServedRoom) -> u64
    ensures { result ≡ capped (length room.now.desk.seen.rows) }
{
    match room.count_rows() {
        Some(rows) => rows,
        None => u64::MAX,
    }
}
