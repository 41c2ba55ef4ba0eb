// What is true of compacted logs. Each function does nothing: its contract is the law.
ghost use Rattle.ifdb_compact.specs.Compacted.{CompactedLogsAnswerAlike, CompactedTextsRestore};

use ifdb_restore::same_logs_answer_alike;

/// Texts that restore a log: those of them that are public changes, and then the commits of all its rows in their order, some at
/// a time, restore the compacted log.
pub fn compacted_texts_restore()
    ensures { CompactedTextsRestore }
{}

/// Over a log and a compacted one, whoever comes later is told the same, and adds the same.
pub fn compacted_logs_answer_alike()
    ensures { CompactedLogsAnswerAlike }
{
    same_logs_answer_alike();
}
