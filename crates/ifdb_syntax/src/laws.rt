// Laws of the definitions: functions that do nothing, whose contracts are proved of `specs/` alone.
ghost use Rattle.ifdb_syntax.specs.Examples.{ExprExamples, CondExamples, RequestExamples};
ghost use Rattle.ifdb_syntax.specs.Laws.{KindsDiffer, CanonicalIsLine, NumbersReadAlike, OperatorsReadAlike, WrittenIsBounded, BoundedIsWritten, WithinIsKept, BoundedFits, LineHasShape};

/// Each reserved word and each symbol has a kind of its own, which no name, number or text has.
pub fn kinds_differ()
    ensures { KindsDiffer }
{}

/// The canonical lexemes of a tree that the grammar makes are a line of that tree by the written grammar.
pub fn canonical_is_line()
    ensures { CanonicalIsLine }
{}

/// Within the limits of a line, the bounded reading makes of each number and of each operator what the written one does.
pub fn bounded_reads_alike()
    ensures numbers { NumbersReadAlike }
    ensures operators { OperatorsReadAlike }
{}

/// The written and the bounded grammar have the same lines. The tree of the bounded one is what `bounded_request` makes
/// of the written one's, which is the tree itself where each number and each chain of operators is within the limits.
pub fn bounded_line_is_written()
    ensures to { WrittenIsBounded }
    ensures back { BoundedIsWritten }
{}

/// A bounded reader leaves each tree as it is whose numbers are values and whose expressions have at most 64 operators; and each number of a tree that
/// it makes is a value.
pub fn bounded_keeps_within()
    ensures same { WithinIsKept }
    ensures fits { BoundedFits }
{}

/// The grammar makes only trees of its shapes, so each has canonical lexemes that are a line of it.
pub fn line_has_shape()
    ensures { LineHasShape }
{}

/// Trees by hand have the canonical texts that the rules of parentheses give them.
pub fn examples_are_written_so()
    ensures expressions { ExprExamples }
    ensures conditions { CondExamples }
    ensures requests { RequestExamples }
{}
