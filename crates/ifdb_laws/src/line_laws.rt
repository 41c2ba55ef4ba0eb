// Laws of single lines of the whole server: each function's contract is one, and it does nothing.
ghost use Rattle.ifdb_laws.specs.StepLaws.{CommitsAreJudged, StampsAreAbove, TransactionsAreFrozen, MemoryIsNeverTold, ScriptsAreSpared, ByeAloneCloses, RefusalsChangeNothing, RefusedCommitsEnd, RefusedStepsChangeNothing, UnjudgedCommitsChangeNothing};

/// In a transaction each line but COMMIT is answered by what was before its BEGIN, its own writes and its session alone.
pub fn transactions_are_frozen()
    ensures { TransactionsAreFrozen }
{}

/// A refused line leaves its session, its transaction and the log as they were, a COMMIT too that isn't judged. A COMMIT that is judged
/// and refused ends its transaction, and changes nothing else.
pub fn refusals_change_nothing()
    ensures lines { RefusalsChangeNothing }
    ensures steps { RefusedStepsChangeNothing }
    ensures commits { RefusedCommitsEnd }
    ensures unjudged { UnjudgedCommitsChangeNothing }
{}

/// A COMMIT is judged over the content, with all tags, by the commits since its BEGIN, at the label of now. The stamps of those commits are above the BEGIN.
pub fn commits_are_judged()
    ensures verdict { CommitsAreJudged }
    ensures stamps { StampsAreAbove }
{}

/// The machine never tells want of memory by itself, whatever it is asked: error 20 comes of memory that was refused, and of nothing else.
pub fn memory_is_never_told()
    ensures lines { MemoryIsNeverTold }
    ensures scripts { ScriptsAreSpared }
{}

/// A session is closed at a line by BYE alone.
pub fn bye_alone_closes()
    ensures { ByeAloneCloses }
{}
