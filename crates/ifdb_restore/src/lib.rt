//! What a restart restores: the records of a run restore its log, and those of a shorter log one that answers alike from then on.
//! Each function does nothing: its contract is the law.
#![tactic(auto)]

ghost use Rattle.ifdb_restore.specs.Same.{SameLogsAnswerAlike};
ghost use Rattle.ifdb_restore.specs.Compacted.{CompactedRestore};
ghost use Rattle.ifdb_restore.specs.Fronts.{FrontsRestore};
ghost use Rattle.ifdb_restore.specs.Parents.{ParentsAreSpared};
ghost use Rattle.ifdb_restore.specs.Passing.{RunsAreRestored, RunsPass};
ghost use Rattle.ifdb_restore.specs.Redone.{ChangesAreRedone, RecordsRestore};
ghost use Rattle.ifdb_restore.specs.Shorter.{ShorterLeavesSame};

/// Over logs that leave the same public state and rows, sessions without a transaction are told the same from then on.
pub fn same_logs_answer_alike()
    ensures { SameLogsAnswerAlike }
{}

/// The shorter log leaves what the log leaves.
pub fn shorter_leaves_same()
    ensures { ShorterLeavesSame }
{}

/// A public change is made again by its line and the principal that asked it, over any log with the same public state.
pub fn changes_are_redone()
    ensures { ChangesAreRedone }
{}

/// The records of a run restore its log, where its commits pass the test for what may be installed.
pub fn records_restore()
    ensures { RecordsRestore }
{}

/// A front of some records restores as long a front of the log that all of them restore.
pub fn fronts_restore()
    ensures { FrontsRestore }
{}

/// What a COMMIT asks of written rows and of children is just that each row's parents stand after the writes.
pub fn parents_are_spared()
    ensures { ParentsAreSpared }
{}

/// The records of public changes, and one of all rows, restore the shorter log.
pub fn compacted_records_restore()
    ensures { CompactedRestore }
{}

/// Each commit of a run passes the test for a recorded one.
pub fn runs_pass()
    ensures { RunsPass }
{}

/// The records of a run restore its log, and a compacted list of them the shorter log.
pub fn runs_are_restored()
    ensures { RunsAreRestored }
{}
