// What is true of every replay. Each function does nothing: its contract is the law.
ghost use Rattle.ifdb_replay.specs.FirstWord.{KeptReplays, QuietLines};
ghost use Rattle.ifdb_replay.specs.Replay.{ReplayGoesOn, ReplayKeeps};

/// Where lines without a record change nothing, a replay of what is kept of some steps leaves the
/// log and the sessions that the steps leave.
pub fn replay_keeps()
    ensures { ReplayKeeps }
{}

/// Records behind others replay one behind the other.
pub fn replay_goes_on()
    ensures { ReplayGoesOn }
{}

/// By the grammar, a line whose first word is SELECT or SHOW is one, or has a fault.
pub fn quiet_lines()
    ensures { QuietLines }
{}

/// Lines are read by the grammar, and kept by their first words: then records that were replayed,
/// and behind them what is kept of the steps that followed, replay to the log and the sessions that
/// these steps leave.
pub fn kept_replays()
    ensures { KeptReplays }
{}
