// What a connection does with its session: it opens it, asks lines of it, and lets it leave, each in a turn at the shared room; a
// lent session is asked most lines without one.
ghost use Rattle.std.specs.Prelude.{◌≡◌, ℕ, List, true, IfOk, OnErr, Some};
ghost use Rattle.ifdb_turn.specs.Passes.{history, places, BelongsTo, IsOrderly};
ghost use Rattle.ifdb_turn.specs.Turns.{object_of, pass_of, IsTurn, Adds as AddsEntry};
ghost use Rattle.ifdb_session.specs.Starts.{start_of};
ghost use Rattle.ifdb_history.specs.History.{after, entry_of, opening_entry, IsRight, IsShut};
ghost use Rattle.ifdb_history.specs.Lines.{lines_of, IsTold};
ghost use Rattle.ifdb_history.specs.declared.entry.Kind.TheVariants.{Asked as AskedKind, Left as LeftKind, Looked as LookedKind, Refused as RefusedKind};
ghost use Rattle.ifdb_session.specs.Standing.{StandsForHistory, root_of};
ghost use Rattle.ifdb_session.specs.Closings.{HasLeft};
ghost use Rattle.ifdb_session.specs.Acknowledged.{IsSourced, sources_of};
ghost use Rattle.ifdb_session.specs.Behind.{AnswersBehind};
ghost use Rattle.ifdb_session.specs.Ends.{EndsBare, EndsOf, EndsWith};
ghost use Rattle.ifdb_session.specs.Passes.{Sees, Adds, Asks, IsNew, LeavesAll, LeavesOthers, TakesNoTurn};
ghost use Rattle.ifdb_session.specs.Seats.{asked_entry, left_entry, lines_in, IsSeated, IsToldIn};

use crate::seat::{Seat, show};
use crate::shared::Asked;
use crate::work::Work;
use crate::{OutOfMemory, Records, SharedRoom};
use ifdb_db::ReadLine;
use ifdb_history::Entry;
use ifdb_turn::{NamedEntry, Object, Pass, Turn, Turnstile};
use ifdb_wire::Out;
use std::marker::Brand;
use std::sync::Wait;

/// Opens the next session, and says its number. Takes a turn.
///
/// # Errors
/// `OutOfMemory` opens none.
pub fn open<R: Wait, Q: Records>(
    rt: &R,
    hall: &Turnstile<SharedRoom<Q>>,
    pass: &mut Pass<SharedRoom<Q>>,
) -> Result<u64, OutOfMemory>
    requires pass { BelongsTo hall.now pass.old }
    ensures sees { Sees Q.first hall.now pass.old pass.new }
    ensures new { IfOk result (λ n. IsNew Q.first n pass.old pass.new) }
    ensures none { OnErr result (places pass.new ≡ places pass.old) }
    ensures all { LeavesAll Q.first pass.old pass.new }
{
    let mut turn = hall.enter(rt, pass);
    let Ok(n) = turn.object().open() else {
        done_bare(turn);
        return Err(OutOfMemory);
    };
    done_opened::<Q, Brand>(turn);
    Ok(n)
}

/// What became of a line that was asked.
#[derive(Clone, Copy, Debug, PartialEq, Eq)]
pub struct Outcome {
    /// Whether the session is open still.
    pub is_open: bool,
    /// How many records of a journal were made up to the turn that answered the line, if one did.
    pub count: Option<u64>,
}

// Asks a line of a session that is open, in a turn. The line is read before it, and a SELECT outside a transaction is answered
// after it. A lent session comes back, and its work with it. The reply stands in `out`: where there was no memory it is error 20.
fn ask_in_turn<R: Wait, Q: Records>(
    rt: &R,
    hall: &Turnstile<SharedRoom<Q>>,
    pass: &mut Pass<SharedRoom<Q>>,
    seat: &mut Seat,
    line: &[u8],
    out: &mut Out,
) -> Outcome
    requires pass { BelongsTo hall.now pass.old }
    requires seated { IsSeated Q.first (history pass.old) (places pass.old) seat.old }
    ensures asks { Asks Q.first hall.now line.now out.new.text
        pass.old pass.new seat.old seat.new result.is_open }
    ensures others { LeavesOthers Q.first seat.old.number pass.old pass.new }
    ensures sourced { IsSourced Q.first Q.count_of seat.old.number
        (history pass.old) (history pass.new) result.count }
    ensures behind { AnswersBehind Q.first (history pass.old) (history pass.new) seat.old }
{
    let n = seat.number;
    let read = ReadLine::new(seat.alloc, line);
    let mut turn = hall.enter(rt, pass);
    let read = match turn.object().look(n, &seat.lent, read) {
        Ok((look, count)) => {
            done_looked::<Q, Brand>(turn, n, line);
            show(look, out);
            return Outcome {
                is_open: true,
                count: Some(count),
            };
        }
        Err(read) => read,
    };
    match turn.object().ask(n, &mut seat.lent, read, out) {
        Asked::Done { is_open, count } => {
            done_asked::<Q, Brand>(turn, n, &seat.work, line);
            seat.work = Work::new();
            Outcome {
                is_open,
                count: Some(count),
            }
        }
        Asked::Refused { count } => {
            done_refused::<Q, Brand>(turn, n, line);
            Outcome {
                is_open: true,
                count: Some(count),
            }
        }
        Asked::Kept => {
            done_bare(turn);
            seat.work = seat.work.and(line, true);
            Outcome {
                is_open: true,
                count: None,
            }
        }
    }
}

/// Asks a line of a session that is open: of a lent one without a turn, where that can answer it, else in a turn of its own. The
/// reply stands in `out`: where there was no memory it is error 20.
pub fn ask<R: Wait, Q: Records>(
    rt: &R,
    hall: &Turnstile<SharedRoom<Q>>,
    pass: &mut Pass<SharedRoom<Q>>,
    seat: &mut Seat,
    line: &[u8],
    out: &mut Out,
) -> Outcome
    requires pass { BelongsTo hall.now pass.old }
    requires orderly { IsOrderly (IsRight (start_of Q.first)) pass.old }
    requires seated { IsSeated Q.first (history pass.old) (places pass.old) seat.old }
    ensures asks { Asks Q.first hall.now line.now out.new.text
        pass.old pass.new seat.old seat.new result.is_open }
    ensures others { LeavesOthers Q.first seat.old.number pass.old pass.new }
    ensures sourced { IsSourced Q.first Q.count_of seat.old.number
        (history pass.old) (history pass.new) result.count }
    ensures behind { AnswersBehind Q.first (history pass.old) (history pass.new) seat.old }
    ensures alone { TakesNoTurn line.now seat.old.lent pass.old pass.new }
{
    if seat.ask(line, out) {
        return Outcome {
            is_open: true,
            count: None,
        };
    }
    ask_in_turn(rt, hall, pass, seat, line, out)
}

/// The session of a seat, which is open, leaves without BYE; a lent one comes back, and its transaction, if one is open, is over.
/// Takes a turn, and no memory.
pub fn leave<R: Wait, Q: Records>(
    rt: &R,
    hall: &Turnstile<SharedRoom<Q>>,
    pass: &mut Pass<SharedRoom<Q>>,
    seat: Seat,
)
    requires pass { BelongsTo hall.now pass.old }
    requires seated { IsSeated Q.first (history pass.old) (places pass.old) seat }
    ensures sees { Sees Q.first hall.now pass.old pass.new }
    ensures adds { Adds seat.number pass.old pass.new }
    ensures others { LeavesOthers Q.first seat.number pass.old pass.new }
    ensures over { IsShut (after (start_of Q.first) (history pass.new)) seat.number }
    ensures left { HasLeft seat.number (history pass.new) }
    ensures sourced { sources_of Q.first seat.number (history pass.new)
        ≡ sources_of Q.first seat.number (history pass.old) }
    ensures behind { AnswersBehind Q.first (history pass.old) (history pass.new) seat }
    ensures lines { lines_of seat.number (history pass.new) ≡ lines_in (history pass.old) seat }
    ensures texts { (text : List ℕ) → IsToldIn Q.first (history pass.old) seat text
        → IsTold (start_of Q.first) seat.number (history pass.new) text }
{
    let Seat {
        number,
        lent,
        work,
        ..
    } = seat;
    let mut turn = hall.enter(rt, pass);
    turn.object().leave(number, lent);
    done_left::<Q, Brand>(turn, number, &work);
}

// Ends a turn that adds nothing.
fn done_bare<Q: Records>(turn: Turn<'_, SharedRoom<Q>>)
    requires turn { IsTurn turn }
    requires stands { StandsForHistory Q.Records (object_of turn) (history (pass_of turn)) }
    ensures { EndsBare Q.first turn.entry turn.exit.0.now }
{
    turn.leave();
}

// Ends a turn in which a session was opened.
fn done_opened<Q: Records, N: NamedEntry<Entry>>(turn: Turn<'_, SharedRoom<Q>>)
    requires turn { IsTurn turn }
    requires entry { let e = opening_entry (history (pass_of turn)) in
        (N.entry ≡ Some e) × AddsEntry (StandsForHistory Q.Records) (IsRight (start_of Q.first)) root_of turn e }
    ensures { EndsWith Q.first turn.entry turn.exit.0.now (opening_entry (history (pass_of turn.entry))) }
{
    turn.done::<N>();
}

// Ends a turn in which a session asked a line, and brought its work along.
fn done_asked<Q: Records, N: NamedEntry<Entry>>(
    turn: Turn<'_, SharedRoom<Q>>,
    n: u64,
    work: &Work,
    line: &[u8],
)
    requires turn { IsTurn turn }
    requires entry { let e = asked_entry (history (pass_of turn)) n work.now.notes line.now in
        (N.entry ≡ Some e) × AddsEntry (StandsForHistory Q.Records) (IsRight (start_of Q.first)) root_of turn e }
    ensures { EndsOf Q.first turn.entry turn.exit.0.now n (AskedKind n work.now.notes line.now) }
{
    turn.done::<N>();
}

// Ends a turn in which a session asked a line that only looks.
fn done_looked<Q: Records, N: NamedEntry<Entry>>(turn: Turn<'_, SharedRoom<Q>>, n: u64, line: &[u8])
    requires turn { IsTurn turn }
    requires entry { let e = entry_of (history (pass_of turn)) n (LookedKind n line.now) in
        (N.entry ≡ Some e) × AddsEntry (StandsForHistory Q.Records) (IsRight (start_of Q.first)) root_of turn e }
    ensures { EndsOf Q.first turn.entry turn.exit.0.now n (LookedKind n line.now) }
{
    turn.done::<N>();
}

// Ends a turn in which there was no memory for a line.
fn done_refused<Q: Records, N: NamedEntry<Entry>>(
    turn: Turn<'_, SharedRoom<Q>>,
    n: u64,
    line: &[u8],
)
    requires turn { IsTurn turn }
    requires entry { let e = entry_of (history (pass_of turn)) n (RefusedKind n line.now) in
        (N.entry ≡ Some e) × AddsEntry (StandsForHistory Q.Records) (IsRight (start_of Q.first)) root_of turn e }
    ensures { EndsOf Q.first turn.entry turn.exit.0.now n (RefusedKind n line.now) }
{
    turn.done::<N>();
}

// Ends a turn in which a session left, and brought its work along.
fn done_left<Q: Records, N: NamedEntry<Entry>>(turn: Turn<'_, SharedRoom<Q>>, n: u64, work: &Work)
    requires turn { IsTurn turn }
    requires entry { let e = left_entry (history (pass_of turn)) n work.now.notes in
        (N.entry ≡ Some e) × AddsEntry (StandsForHistory Q.Records) (IsRight (start_of Q.first)) root_of turn e }
    ensures { EndsOf Q.first turn.entry turn.exit.0.now n (LeftKind n work.now.notes) }
{
    turn.done::<N>();
}
