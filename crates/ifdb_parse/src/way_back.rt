// The laws of the way back: functions that do nothing, whose contracts are proved of `specs/` alone.
ghost use Rattle.ifdb_parse.specs.Back.{ReadsBack};
ghost use Rattle.ifdb_parse.specs.Laws.{ParsedReadsBack};

/// The canonical text of each request that some line spells is a line that spells it: it has no fault, its tree is the request, and it passes no limit.
pub fn canonical_text_reads_back()
    ensures { ReadsBack }
{}

/// The canonical text of each request that `parse` gives is a line of which `parsed` gives the same request. `print` writes this text.
pub fn requests_read_back()
    ensures { ParsedReadsBack }
{}
