// A CALL: a session of its own is asked line by line.
ghost use Rattle.std.specs.Prelude.{◌≡◌, ◌++◌, ◌∷◌, [], true, false, IfErr, IfOk, OnErr, OnOk, Some, map};
ghost use Rattle.ifdb_wire.specs.Text.{IsUnbounded, reply_text};
ghost use Rattle.ifdb_model.specs.Run.{State};
ghost use Rattle.ifdb_db.specs.Room.{StandsFor, was_opened};
ghost use Rattle.ifdb_closure.specs.Closures.{commit_line, is_refusal};
ghost use Rattle.ifdb_closure.specs.Asking.{AskedAll, CallRan, IsCall, IsUncommitted, Passed, Stop, Stopped, after_line, label_of, reply_at};

use crate::lines::Lines;
use ifdb_db::Room;
use ifdb_wire::{Fault, Out, Reply};

const COMMIT: &[u8] = b"COMMIT";

/// Asks these lines of a session of its own, for a caller, and then COMMIT; puts the reply to the last line. An error is the
/// refusal that ended the call, or want of memory; in each case the session is gone.
pub(crate) fn run_call(
    room: &mut Room,
    caller: u64,
    lines: &Lines<'_>,
    shown: u64,
    out: &mut Out,
) -> Result<(), Fault>
    requires stands { (st : State) × StandsFor room.old st }
    requires caller { was_opened room.old caller ≡ true }
    ensures { (st : State) → StandsFor room.old st → CallRan room.new (label_of st caller) st
        (map (λ l. l.now) lines.now.front.items ++ lines.now.last.now ∷ [])
        shown out.new.text result }
{
    let Some(session) = room.sessions().checked_add(1) else {
        // No memory holds so many sessions.
        return Err(Fault::OutOfMemory);
    };
    room.open_next()?;
    let end = ask_all(room, session, caller, lines, shown, out);
    room.leave(session);
    end
}

/// Asks all lines of a call's session, and COMMIT.
fn ask_all(
    room: &mut Room,
    session: u64,
    caller: u64,
    lines: &Lines<'_>,
    shown: u64,
    out: &mut Out,
) -> Result<(), Fault>
    requires { IsCall room.old session caller }
    ensures { (st : State) → StandsFor room.old st
        → AskedAll room.new (label_of st caller) session st
        (map (λ l. l.now) lines.now.front.items ++ lines.now.last.now ∷ [])
        shown out.new.text result }
{
    ask_lines(room, session, caller, &lines.front)?;
    ask_last(room, session, caller, lines.last, shown, out)?;
    commit(room, session)
}

/// Asks lines, each of which has to pass.
fn ask_lines(room: &mut Room, session: u64, caller: u64, lines: &[&[u8]]) -> Result<(), Fault>
    requires { IsCall room.old session caller }
    ensures called { OnOk result (IsCall room.new session caller) }
    ensures passed { OnOk result ((st : State) → StandsFor room.old st
        → Passed room.new (label_of st caller) session st (map (λ l. l.now) lines.now)) }
    ensures stopped { IfErr result (λ f. (st : State) → StandsFor room.old st
        → Stopped room.new (label_of st caller) session st (map (λ l. l.now) lines.now) f) }
{
    for line in lines {
        ask_line(room, session, caller, line)?;
    }
    Ok(())
}

/// Asks a line, which has to pass, and puts its reply.
fn ask_last(
    room: &mut Room,
    session: u64,
    caller: u64,
    line: &[u8],
    shown: u64,
    out: &mut Out,
) -> Result<(), Fault>
    requires { IsCall room.old session caller }
    ensures passed { OnOk result ((st : State) → StandsFor room.old st
        → Passed room.new (label_of st caller) session st (line.now ∷ [])) }
    ensures told { OnOk result ((st : State) → StandsFor room.old st
        → out.new.text ≡ reply_text (Some shown) (reply_at session st line.now)) }
    ensures stopped { IfErr result (λ f. (st : State) → StandsFor room.old st
        → Stop room.new (label_of st caller) session st line.now f) }
{
    let reply = ask_line(room, session, caller, line)?;
    out.speak_for(Some(shown));
    if !out.put(&reply) {
        // Only replies that change nothing can lack memory.
        return Err(Fault::OutOfMemory);
    }
    Ok(())
}

/// Asks a line. It passes where it isn't refused and leaves the session's label within the caller's; an error is want of memory,
/// which changes nothing, or the refusal, or ClosureLabel.
fn ask_line(room: &mut Room, session: u64, caller: u64, line: &[u8]) -> Result<Reply, Fault>
    requires { IsCall room.old session caller }
    ensures called { OnOk result (IsCall room.new session caller) }
    ensures passed { OnOk result ((st : State) → StandsFor room.old st
        → Passed room.new (label_of st caller) session st (line.now ∷ [])) }
    ensures told { IfOk result (λ r. (st : State) → StandsFor room.old st
        → r ≡ reply_at session st line.now) }
    ensures still { IfOk result (λ r. IsUnbounded r → room.new ≡ room.old) }
    ensures stopped { IfErr result (λ f. (st : State) → StandsFor room.old st
        → Stop room.new (label_of st caller) session st line.now f) }
{
    let reply = room.reply(session, line)?;
    if let Reply::Refused(fault) = reply {
        return Err(fault);
    }
    if !room.flows(session, caller) {
        return Err(Fault::ClosureLabel);
    }
    Ok(reply)
}

/// Asks COMMIT. An error is want of memory, which changes nothing, or the refusal.
fn commit(room: &mut Room, session: u64) -> Result<(), Fault>
    ensures committed { OnOk result ((st : State) → StandsFor room.old st
        → StandsFor room.new (after_line session st commit_line)
        × (is_refusal (reply_at session st commit_line) ≡ false)) }
    ensures refused { IfErr result (λ f. (st : State) → StandsFor room.old st
        → IsUncommitted room.new session st f) }
{
    match room.reply(session, COMMIT)? {
        Reply::Refused(fault) => Err(fault),
        _ => Ok(()),
    }
}
