// One connection: its lines are asked one by one, and each reply is written before the next line is read.
ghost use Rattle.std.specs.Prelude.{◌≡◌, ◌≢◌, ◌≤◌, ◌^◌, [], ℕ, true, false, IsSome, OnOk, OnErr};
ghost use Rattle.std.specs.Io.KnownBytes.{Appends};
ghost use Rattle.ifdb_io.specs.Causes.{HasCause, Rose, WritesShort};
ghost use Rattle.ifdb_turn.specs.Passes.{history, places, BelongsTo, IsOrderly, NoForeignRoots};
ghost use Rattle.ifdb_wire.specs.Text.{reply_text};
ghost use Rattle.ifdb_history.specs.History.{IsRight};
ghost use Rattle.ifdb_session.specs.Starts.{start_of};
ghost use Rattle.ifdb_session.specs.Passes.{Sees, Adds, Asks};
ghost use Rattle.ifdb_session.specs.Seats.{lines_in, IsSeated, IsToldIn};
ghost use Rattle.ifdb_session.specs.Links.{Served};
ghost use Rattle.ifdb_session.specs.Acknowledged.{AllButLastKept, AllKept, IsAcknowledged, IsKeptIf};
ghost use Rattle.ifdb_session.specs.Keepers.{StaysReady};
ghost use Rattle.ifdb_session.specs.Standing.{root_of};
ghost use Rattle.ifdb_session.specs.Talk.{IsTalked};

use crate::seat::Seat;
use crate::turns::{Outcome, ask, leave, open};
use crate::{Ending, Records, Settles, SharedRoom};
use ifdb_io::{Failed, Line, LineFault, LineReader, Link, write_all};
use ifdb_turn::{Pass, Turnstile};
use ifdb_wire::{Fault, Out, Reply};
use std::alloc::Global;
use std::sync::Wait;

// What became of a line: whether its session is open still, whether that is kept which the reply was answered from, and whether
// the reply was written.
#[derive(Clone, Copy, Debug, PartialEq, Eq)]
struct Answered {
    is_open: bool,
    is_kept: bool,
    is_written: bool,
}

// How the lines ended, and whether the session is open still.
#[derive(Clone, Copy, Debug, PartialEq, Eq)]
struct Talked {
    ending: Ending,
    is_open: bool,
}

/// Serves a connection: opens a session, asks each line that comes and writes its reply, up to BYE, the end of the input, a
/// failure, a line that is too long, or one byte more than the limit. Between BEGIN and the line that ends the transaction
/// its session is lent, and a line takes no turn, where there is memory for that. A session that is open at the end leaves,
/// and its transaction is dropped. A reader of 128 KiB and a buffer are taken before anything is read, and each line takes what its
/// request does.
///
/// The reply to a line that took a turn is written once all is kept that was recorded up to that turn; where the disk has
/// failed, nothing of it is. A reply of a lent session was answered from what all saw at its BEGIN, whose reply was written so.
///
/// `LinkRead` and `LinkWrite` come only where the link's own count of such failures rose, and `Unkept` only where it is known
/// that the disk has failed; at every other end but `LinkRead` no read failed.
pub fn serve_link<R: Wait, K: Link, Q: Records, S: Settles<Q>>(
    rt: &R,
    alloc: Global,
    hall: &Turnstile<SharedRoom<Q>>,
    pass: &mut Pass<SharedRoom<Q>>,
    keeper: &mut S,
    link: &mut K,
    limit: u64,
) -> Ending
    requires pass { BelongsTo hall.now pass.old }
    requires orderly { IsOrderly (IsRight (start_of Q.first)) pass.old }
    requires limit { limit ≤ 2 ^ 40 }
    requires keeper { S.ready keeper.old }
    ensures sees { Sees Q.first hall.now pass.old pass.new }
    ensures keeper { StaysReady S.Settles keeper.old keeper.new }
    ensures served { result ≢ Ending.OutOfMemory
        → (n : ℕ) × Served Q.first result limit n pass.old pass.new (record {
          left = K.left link.old;
          left_now = K.left link.new;
          written = K.written link.old;
          written_now = K.written link.new;
        }) × IsAcknowledged Q.Records S.Settles result n (history pass.new) keeper.new }
    ensures unserved { result ≡ Ending.OutOfMemory → link.new ≡ link.old }
    ensures unopened { result ≡ Ending.OutOfMemory → places pass.new ≡ places pass.old }
    ensures read_cause { result ≡ Ending.LinkRead
        → Rose (K.Source.faults link.old) (K.Source.faults link.new) }
    ensures unfailed { result ≢ Ending.LinkRead
        → K.Source.faults link.new ≡ K.Source.faults link.old }
    ensures write_cause { result ≡ Ending.LinkWrite
        → Rose (K.Sink.faults link.old) (K.Sink.faults link.new) }
    ensures unkept { result ≡ Ending.Unkept → S.has_failed keeper.new }
{
    let Ok(mut reader) = LineReader::new(alloc, limit) else {
        return Ending::OutOfMemory;
    };
    let Ok(mut out) = Out::new(alloc) else {
        return Ending::OutOfMemory;
    };
    let Ok(n) = open(rt, hall, pass) else {
        return Ending::OutOfMemory;
    };
    let mut seat = Seat::new(alloc, n);
    let talked = talk(
        rt,
        hall,
        pass,
        keeper,
        &mut seat,
        &mut reader,
        &mut out,
        link,
    );
    if !talked.is_open {
        return talked.ending;
    }
    leave(rt, hall, pass, seat);
    talked.ending
}

// Asks each line that comes, and writes its reply, to the end.
fn talk<R: Wait, K: Link, Q: Records, S: Settles<Q>>(
    rt: &R,
    hall: &Turnstile<SharedRoom<Q>>,
    pass: &mut Pass<SharedRoom<Q>>,
    keeper: &mut S,
    seat: &mut Seat,
    reader: &mut LineReader,
    out: &mut Out,
    link: &mut K,
) -> Talked
    requires pass { BelongsTo hall.now pass.old }
    requires orderly { IsOrderly (IsRight (start_of Q.first)) pass.old }
    requires seated { IsSeated Q.first (history pass.old) (places pass.old) seat.old }
    requires no_lines { lines_in (history pass.old) seat.old ≡ [] }
    requires no_texts { IsToldIn Q.first (history pass.old) seat.old [] }
    requires reader { reader.old ≡ record {
      text = [];
      held = [];
      skipping = false;
      taken = 0;
      limit = reader.old.limit;
      over = false;
    } }
    requires keeper { S.ready keeper.old }
    ensures sees { Sees Q.first hall.now pass.old pass.new }
    ensures adds { Adds seat.old.number pass.old pass.new }
    ensures number { seat.new.number ≡ seat.old.number }
    ensures keeper { StaysReady S.Settles keeper.old keeper.new }
    ensures acknowledged { IsAcknowledged Q.Records S.Settles
        result.ending seat.old.number (history pass.new) keeper.new }
    ensures unkept { result.ending ≡ Ending.Unkept → S.has_failed keeper.new }
    ensures talked { IsTalked Q.first (history pass.new) (places pass.new) seat.new reader.old.limit
        (record {
          left = K.left link.old;
          left_now = K.left link.new;
          written = K.written link.old;
          written_now = K.written link.new;
        }) result }
    ensures read_cause { result.ending ≡ Ending.LinkRead
        → Rose (K.Source.faults link.old) (K.Source.faults link.new) }
    ensures unfailed { result.ending ≢ Ending.LinkRead
        → K.Source.faults link.new ≡ K.Source.faults link.old }
    ensures write_cause { result.ending ≡ Ending.LinkWrite
        → Rose (K.Sink.faults link.old) (K.Sink.faults link.new) }
{
    loop {
        match reader.next(link) {
            Ok(Line::Whole) => {
                let Answered {
                    is_open,
                    is_kept,
                    is_written,
                } = answer(rt, hall, pass, keeper, seat, reader, out, link);
                if !is_kept {
                    return Talked {
                        ending: Ending::Unkept,
                        is_open,
                    };
                }
                if !is_written {
                    return Talked {
                        ending: Ending::LinkWrite,
                        is_open,
                    };
                }
                if !is_open {
                    return Talked {
                        ending: Ending::Bye,
                        is_open,
                    };
                }
            }
            Ok(Line::TooLong) => {
                let ending = match refuse_long(out, link) {
                    Ok(()) => Ending::TooLong,
                    Err(Failed) => Ending::LinkWrite,
                };
                return Talked {
                    ending,
                    is_open: true,
                };
            }
            Ok(Line::Rest) | Ok(Line::End) => {
                return Talked {
                    ending: Ending::End,
                    is_open: true,
                };
            }
            Err(LineFault::Read) => {
                return Talked {
                    ending: Ending::LinkRead,
                    is_open: true,
                };
            }
            Err(LineFault::TooMuch) => {
                return Talked {
                    ending: Ending::TooMuch,
                    is_open: true,
                };
            }
        }
    }
}

// Asks the line that was read, waits until that is kept which its reply was answered from, and writes the reply.
fn answer<R: Wait, K: Link, Q: Records, S: Settles<Q>>(
    rt: &R,
    hall: &Turnstile<SharedRoom<Q>>,
    pass: &mut Pass<SharedRoom<Q>>,
    keeper: &mut S,
    seat: &mut Seat,
    reader: &LineReader,
    out: &mut Out,
    link: &mut K,
) -> Answered
    requires pass { BelongsTo hall.now pass.old }
    requires orderly { IsOrderly (IsRight (start_of Q.first)) pass.old }
    requires seated { IsSeated Q.first (history pass.old) (places pass.old) seat.old }
    requires keeper { S.ready keeper.old }
    ensures asks { Asks Q.first hall.now reader.now.text out.new.text
        pass.old pass.new seat.old seat.new result.is_open }
    ensures keeper { StaysReady S.Settles keeper.old keeper.new }
    ensures kept { result.is_kept ≡ true
        → AllKept Q.Records S.Settles seat.old.number (history pass.old) keeper.old
        → AllKept Q.Records S.Settles seat.old.number (history pass.new) keeper.new }
    ensures unkept { result.is_kept ≡ false
        → AllKept Q.Records S.Settles seat.old.number (history pass.old) keeper.old
        → AllButLastKept Q.Records S.Settles seat.old.number (history pass.new) keeper.new }
    ensures unkept_cause { result.is_kept ≡ false → S.has_failed keeper.new }
    ensures held { result.is_kept ≡ false → link.new ≡ link.old }
    ensures written { result.is_written ≡ true
        → Appends (K.written link.old) (K.written link.new) out.new.text }
    ensures unwritten { result.is_kept ≡ true → result.is_written ≡ false
        → WritesShort (K.written link.old) (K.written link.new) out.new.text }
    ensures cause { result.is_kept ≡ true → result.is_written ≡ false
        → Rose (K.Sink.faults link.old) (K.Sink.faults link.new) }
    ensures later { K.Sink.faults link.old ≤ K.Sink.faults link.new }
    ensures left { K.left link.new ≡ K.left link.old }
    ensures reads { K.Source.faults link.new ≡ K.Source.faults link.old }
{
    let Outcome { is_open, count } = ask(rt, hall, pass, seat, reader.text(), out);
    if let Err(Failed) = settle_if(rt, hall, pass, keeper, count) {
        return Answered {
            is_open,
            is_kept: false,
            is_written: false,
        };
    }
    let is_written = write_all(link, out.bytes()).is_ok();
    Answered {
        is_open,
        is_kept: true,
        is_written,
    }
}

// Waits until so many records are kept, if a turn told how many.
fn settle_if<R: Wait, Q: Records, S: Settles<Q>>(
    rt: &R,
    hall: &Turnstile<SharedRoom<Q>>,
    pass: &mut Pass<SharedRoom<Q>>,
    keeper: &mut S,
    count: Option<u64>,
) -> Result<(), Failed>
    requires pass { BelongsTo hall.now pass.old }
    requires orderly { IsOrderly (IsRight (start_of Q.first)) pass.old }
    requires keeper { S.ready keeper.old }
    ensures keeper { StaysReady S.Settles keeper.old keeper.new }
    ensures sees { Sees Q.first hall.now pass.old pass.new }
    ensures places { places pass.new ≡ places pass.old }
    ensures away { NoForeignRoots root_of pass.old pass.new }
    ensures kept { OnOk result (IsKeptIf Q.Records S.Settles keeper.new count) }
    ensures some { OnErr result (IsSome count) }
    ensures failed { OnErr result (S.has_failed keeper.new) }
{
    match count {
        None => Ok(()),
        Some(count) => keeper.settle(rt, hall, pass, count),
    }
}

// Tells a connection that its line is too long.
fn refuse_long<K: Link>(out: &mut Out, link: &mut K) -> Result<(), Failed>
    ensures ok { OnOk result (Appends (K.written link.old) (K.written link.new)
        (reply_text None (Reply.Refused Fault.TooLong))) }
    ensures err { OnErr result (WritesShort (K.written link.old) (K.written link.new)
        (reply_text None (Reply.Refused Fault.TooLong))) }
    ensures cause { HasCause (K.Sink.faults link.old) (K.Sink.faults link.new) result }
    ensures left { K.left link.new ≡ K.left link.old }
    ensures reads { K.Source.faults link.new ≡ K.Source.faults link.old }
{
    out.speak_for(None);
    out.put(&Reply::Refused(Fault::TooLong));
    write_all(link, out.bytes())
}
