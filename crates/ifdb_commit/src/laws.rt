// How a verdict over a store is one over a log: the clause is the law, and the function does nothing.
ghost use Rattle.ifdb_commit.specs.Laws.{JudgesALog};

/// For each log that a store stands for with a floor that isn't above the BEGIN, the verdict over what the store keeps is the verdict over
/// the log.
#[tactic(auto, using(crate::proofs::LogLemmas::judges_a_log))]
pub fn judged_over_a_log()
    ensures { JudgesALog }
{}
