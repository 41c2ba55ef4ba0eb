// The turn of one connection.
ghost use Rattle.std.specs.Prelude.{◌≡◌, ◌<◌, ◌≤◌, ℕ, List, None, Some, length, OnOk};
ghost use Rattle.ifdb_io.specs.Lines.{IsLine};
ghost use Rattle.ifdb_io.specs.Reader.{BreaksAt};
ghost use Rattle.ifdb_io.specs.declared.lines.TheConstants.{LONGEST_LINE};
ghost use Rattle.ifdb_loop.specs.Closings.{EndsItself, ending_of};
ghost use Rattle.ifdb_loop.specs.Exchange.{IsTooLong};
ghost use Rattle.ifdb_loop.specs.Dialogues.{Dialogue};
ghost use Rattle.ifdb_loop.specs.Standing.{HasExchanged, Stands, IsServed, KeepsOthers, StillExchanges};

use crate::chunk::SIZE;
use crate::client::MUCH;
use crate::{Chunk, Client, Ending, Front, Port, Service, Timing};

/// How many lines of a connection are asked in a turn at most.
const LINES: u32 = 128;

// Loads what is held of a connection, and reads once, where that begins with no line.
fn take_in<P: Port, T>(
    chunk: &mut Chunk,
    client: &mut Client<P, T>,
    timing: &Timing,
) -> Result<(), Ending>
    requires { client.old.ending ≡ None }
    ensures exchanges { StillExchanges P.Port client.old client.new (ending_of result) chunk.new }
    ensures seat { client.new.seat ≡ client.old.seat }
    ensures ending { client.new.ending ≡ None }
    ensures lost { client.new.is_lost ≡ client.old.is_lost }
    ensures writes { P.unwritten client.new.port ≡ P.unwritten client.old.port }
    ensures own { EndsItself (ending_of result) }
{
    chunk.load(client.wires.held());
    let Front::Part = chunk.front() else {
        client.pace.is_full = true;
        return Ok(());
    };
    read(chunk, client, timing)
}

// Reads once, behind a part of a line, which is all that is held.
fn read<P: Port, T>(
    chunk: &mut Chunk,
    client: &mut Client<P, T>,
    timing: &Timing,
) -> Result<(), Ending>
    requires going { client.old.ending ≡ None }
    requires held { chunk.old ≡ client.old.wires.held }
    requires part { IsLine chunk.old }
    ensures exchanges { StillExchanges P.Port client.old client.new (ending_of result) chunk.new }
    ensures seat { client.new.seat ≡ client.old.seat }
    ensures ending { client.new.ending ≡ None }
    ensures lost { client.new.is_lost ≡ client.old.is_lost }
    ensures writes { P.unwritten client.new.port ≡ P.unwritten client.old.port }
    ensures own { EndsItself (ending_of result) }
{
    let room = client.room;
    let most = (SIZE - chunk.bytes().len()).min(room.max(1));
    let found = match chunk.fill(&mut client.port, most) {
        Ok(found) => found,
        Err(_) => return Err(Ending::LinkRead),
    };
    let Some(count) = found else {
        return wait_on(client, timing);
    };
    if count == 0 {
        return Err(Ending::End);
    }
    if room == 0 {
        return Err(Ending::TooMuch);
    }
    client.room = room - count;
    client.pace.is_full = client.pace.is_full || count == most;
    client.pace.note(true, timing.now);
    Ok(())
}

// Nothing has come. Ends a connection that was silent for too long and is owed nothing.
fn wait_on<P: Port, T>(client: &mut Client<P, T>, timing: &Timing) -> Result<(), Ending>
    ensures exchanges { (long : List ℕ) (limit : ℕ) (held : List ℕ) (d : Dialogue) → IsLine held
        → HasExchanged P.Port long limit client.old None held d
        → HasExchanged P.Port long limit client.new (ending_of result) held d }
    ensures seat { client.new.seat ≡ client.old.seat }
    ensures ending { client.new.ending ≡ client.old.ending }
    ensures lost { client.new.is_lost ≡ client.old.is_lost }
    ensures writes { P.unwritten client.new.port ≡ P.unwritten client.old.port }
    ensures own { EndsItself (ending_of result) }
{
    client.pace.is_full = false;
    if client.wires.owed() > 0 || !client.pace.is_silent(timing) {
        return Ok(());
    }
    client.port.expire_read();
    Err(Ending::LinkRead)
}

// Asks the first line of a chunk, which ends at this newline, and owes its reply. Where there is no memory to ask it, it stays.
fn ask<P: Port, S: Service>(
    service: &mut S,
    chunk: &mut Chunk,
    n: usize,
    client: &mut Client<P, S::Seat>,
    timing: &Timing,
) -> Result<(), Ending>
    requires ready { S.ready service.old }
    requires line { BreaksAt chunk.old n }
    requires short { n ≤ LONGEST_LINE }
    requires stands { Stands S.Service P.Port service.old client.old None chunk.old }
    ensures ready { S.ready service.new }
    ensures goes_on { S.goes_on service.old service.new }
    ensures opened { S.opened service.new ≡ S.opened service.old }
    ensures stands { Stands S.Service P.Port service.new client.new (ending_of result) chunk.new }
    ensures number { S.number client.new.seat ≡ S.number client.old.seat }
    ensures others { KeepsOthers S.Service P.Port service.old service.new
        (S.number client.old.seat) }
    ensures port { client.new.port ≡ client.old.port }
    ensures ending { client.new.ending ≡ client.old.ending }
    ensures lost { client.new.is_lost ≡ client.old.is_lost }
    ensures own { EndsItself (ending_of result) }
{
    let is_open = match service.ask(&mut client.seat, chunk.first(n)) {
        Ok(is_open) => is_open,
        Err(_) => return Err(Ending::OutOfMemory),
    };
    client.pace.greet(timing.now);
    chunk.pass(n + 1);
    if client.wires.put(service.text()).is_err() {
        return Err(Ending::OutOfMemory);
    }
    if !is_open {
        return Err(Ending::Bye);
    }
    Ok(())
}

// Owes what refuses a line that is too long, and says how the connection ends.
fn refuse_long<P: Port, S: Service>(service: &mut S, client: &mut Client<P, S::Seat>) -> Ending
    requires { S.ready service.old }
    ensures ready { S.ready service.new }
    ensures goes_on { S.goes_on service.old service.new }
    ensures opened { S.opened service.new ≡ S.opened service.old }
    ensures stands { (held : List ℕ) → IsTooLong held
        → Stands S.Service P.Port service.old client.old None held
        → Stands S.Service P.Port service.new client.new (Some result) held }
    ensures number { S.number client.new.seat ≡ S.number client.old.seat }
    ensures others { KeepsOthers S.Service P.Port service.old service.new
        (S.number client.old.seat) }
    ensures port { client.new.port ≡ client.old.port }
    ensures ending { client.new.ending ≡ client.old.ending }
    ensures lost { client.new.is_lost ≡ client.old.is_lost }
    ensures own { EndsItself (Some result) }
{
    service.refuse_long();
    if client.wires.put(service.text()).is_err() {
        return Ending::OutOfMemory;
    }
    Ending::TooLong
}

// Asks the whole lines of a chunk, in order, until there are enough of them or too much is owed.
fn ask_lines<P: Port, S: Service>(
    service: &mut S,
    chunk: &mut Chunk,
    client: &mut Client<P, S::Seat>,
    timing: &Timing,
) -> Result<(), Ending>
    requires ready { S.ready service.old }
    requires stands { Stands S.Service P.Port service.old client.old None chunk.old }
    ensures ready { S.ready service.new }
    ensures goes_on { S.goes_on service.old service.new }
    ensures opened { S.opened service.new ≡ S.opened service.old }
    ensures stands { Stands S.Service P.Port service.new client.new (ending_of result) chunk.new }
    ensures number { S.number client.new.seat ≡ S.number client.old.seat }
    ensures others { KeepsOthers S.Service P.Port service.old service.new
        (S.number client.old.seat) }
    ensures port { client.new.port ≡ client.old.port }
    ensures ending { client.new.ending ≡ client.old.ending }
    ensures lost { client.new.is_lost ≡ client.old.is_lost }
    ensures own { EndsItself (ending_of result) }
{
    for _ in 0..LINES {
        if client.wires.owed() >= MUCH {
            return Ok(());
        }
        match chunk.front() {
            Front::Line(n) => ask(service, chunk, n, client, timing)?,
            Front::TooLong => return Err(refuse_long(service, client)),
            Front::Part => return Ok(()),
        }
    }
    Ok(())
}

// Takes what came, asks its lines, and keeps what is left.
fn talk<P: Port, S: Service>(
    service: &mut S,
    chunk: &mut Chunk,
    client: &mut Client<P, S::Seat>,
    timing: &Timing,
) -> Result<(), Ending>
    requires going { client.old.ending ≡ None }
    requires ready { S.ready service.old }
    requires served { IsServed S.Service P.Port service.old client.old }
    ensures ready { S.ready service.new }
    ensures goes_on { S.goes_on service.old service.new }
    ensures opened { S.opened service.new ≡ S.opened service.old }
    ensures ok { OnOk result (Stands S.Service P.Port service.new client.new None
        client.new.wires.held) }
    ensures stands { (held : List ℕ)
        × Stands S.Service P.Port service.new client.new (ending_of result) held }
    ensures number { S.number client.new.seat ≡ S.number client.old.seat }
    ensures others { KeepsOthers S.Service P.Port service.old service.new
        (S.number client.old.seat) }
    ensures ending { client.new.ending ≡ None }
    ensures lost { client.new.is_lost ≡ client.old.is_lost }
    ensures writes { P.unwritten client.new.port ≡ P.unwritten client.old.port }
    ensures own { EndsItself (ending_of result) }
{
    take_in(chunk, client, timing)?;
    ask_lines(service, chunk, client, timing)?;
    if client.wires.keep(chunk.bytes()).is_err() {
        return Err(Ending::OutOfMemory);
    }
    client.pace.has_line = !matches!(chunk.front(), Front::Part);
    Ok(())
}

/// The turn of one connection: what came is taken, its lines are asked, and their replies are owed. One that has ended, or
/// owes much, has none. Nothing is read of one that holds a line still.
pub fn turn<P: Port, S: Service>(
    service: &mut S,
    chunk: &mut Chunk,
    client: &mut Client<P, S::Seat>,
    timing: &Timing,
)
    requires ready { S.ready service.old }
    requires served { IsServed S.Service P.Port service.old client.old }
    ensures ready { S.ready service.new }
    ensures goes_on { S.goes_on service.old service.new }
    ensures opened { S.opened service.new ≡ S.opened service.old }
    ensures served { IsServed S.Service P.Port service.new client.new }
    ensures number { S.number client.new.seat ≡ S.number client.old.seat }
    ensures others { KeepsOthers S.Service P.Port service.old service.new
        (S.number client.old.seat) }
{
    client.pace.is_listed = false;
    if client.ending.is_some() {
        return;
    }
    if client.wires.owed() >= MUCH {
        client.pace.is_full = true;
        return;
    }
    let Err(ending) = talk(service, chunk, client, timing) else {
        return;
    };
    client.ending = Some(ending);
}
