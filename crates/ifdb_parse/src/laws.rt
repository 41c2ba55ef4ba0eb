// Laws of the definitions: functions that do nothing, whose contracts are proved of `specs/` alone.
ghost use Rattle.ifdb_parse.specs.Laws.{WholeIsLine, WholeIsFault, OneRequest, ParsedIsRequest, ParsedIsSyntax, ParsedIsLimit};

/// The parser of the definitions gives a request exactly where the grammar has a line of it, and a place exactly where
/// the lexemes before it begin a line and those with it begin none. So a line has one request, and one place of a fault.
///
/// The grammar is the one whose trees stay small; `ifdb_syntax` ties it to the written one.
pub fn parser_reads_the_grammar()
    ensures request { WholeIsLine }
    ensures fault { WholeIsFault }
    ensures one { OneRequest }
{}

/// What `parsed` gives, by the written grammar alone. A request exactly where the line's tokens say it and it passes no
/// limit. A place exactly where no token begins there, or where the tokens say no request and it is the place of the first
/// that fits nothing. `Limit` exactly where the tokens pass a limit, or say a request that does.
pub fn requests_are_read()
    ensures request { ParsedIsRequest }
    ensures place { ParsedIsSyntax }
    ensures limit { ParsedIsLimit }
{}
