// Laws of scripts with closures: each function is a law, and its contract says it.
ghost use Rattle.ifdb_closure.specs.Bounds.{CallsAreTheOwners, CallsLeaveSessions, CallsStayWithin, ReadsHellosBack, RefusedCallsCommitNothing};
ghost use Rattle.ifdb_closure.specs.Grammar.{CallsAreRead, CreatesAreRead, StatementsAreJoined};
ghost use Rattle.ifdb_closure.specs.Lacking.{MemoryServes};
ghost use Rattle.ifdb_closure.specs.Laws.{ClosuresAlone, ClosuresTwoWorlds, IdleSessionsAreNotSeen, OthersAreNotSeen, ReadClosuresTwoWorlds, ReadsBack};
ghost use Rattle.ifdb_closure.specs.Ran.{MemoryIsRefusedAlone};
ghost use Rattle.ifdb_closure.specs.ScriptBounds.{ScriptCallsAreTheOwners, ScriptCallsCommitNothing};
ghost use Rattle.ifdb_db.specs.Reading.{read_line};

use ifdb_laws::memory_is_never_told;

/// Sessions do the same without the others; and one that adds nothing to the log changes nothing for those below its number.
pub fn idle_sessions()
    ensures others { OthersAreNotSeen }
    ensures idle { IdleSessionsAreNotSeen }
{}

/// A line is CALL, or CREATE CLOSURE, exactly where the grammar has it so; and the statements of a line, with a semicolon between
/// each two, are the line behind AS, but for one more semicolon and the blanks behind it.
pub fn forms_are_read()
    ensures calls { CallsAreRead }
    ensures creates { CreatesAreRead }
    ensures statements { StatementsAreJoined }
{}

/// Scripts with closures that agree below a level, neither of which crosses it, are heard alike there.
pub fn two_worlds()
    ensures alone { ClosuresAlone }
    ensures two { ClosuresTwoWorlds }
{}

/// The program's reading of lines gives back what the HELLO and the SET LABEL of a call say, so for it the law of two worlds
/// has no premise of reading.
pub fn lines_are_read_back()
    ensures back { ReadsBack read_line }
    ensures hellos { ReadsHellosBack read_line }
    ensures two { ReadClosuresTwoWorlds }
{}

/// A call asks each line at a label that flows to its caller's, and each but its HELLO by its owner's principal. It leaves the
/// sessions that were there as they were, and one that is refused commits nothing. So it is at whichever of its lines memory is
/// refused.
pub fn call_bounds()
    ensures within { CallsStayWithin }
    ensures owners { CallsAreTheOwners }
    ensures sessions { CallsLeaveSessions }
    ensures refused { RefusedCallsCommitNothing }
{}

/// Where no step lacks memory, a script is told what its steps are told.
pub fn memory_serves()
    ensures { MemoryServes }
{}

/// Error 20 comes of memory that was refused, and of nothing else.
pub fn memory_is_refused_alone()
    ensures { MemoryIsRefusedAlone }
{
    memory_is_never_told();
}

/// In each world of a script, as the program reads it, a CALL that is told a refusal, error 20 among them, commits nothing; and a
/// call of one of its closures asks each line but its HELLO by the principal of its owner's name.
pub fn script_calls_are_bound()
    ensures refused { ScriptCallsCommitNothing }
    ensures owners { ScriptCallsAreTheOwners }
{}
