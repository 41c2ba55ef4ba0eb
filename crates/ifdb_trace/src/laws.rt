// Laws of traces and of projected scripts: each function's contract is one, and it does nothing.
ghost use Rattle.ifdb_trace.specs.Laws.{ChecksAreExact, FaultsAreExact, FaultsStay, ProjectionIsHeard, StepsAreLow, WaysArePart};

use ifdb_laws::memory_is_never_told;
use ifdb_laws::worlds::inside_alone;

/// A projected script has the steps that are asked inside, and run alone it writes what those inside heard.
pub fn projections_are_heard()
    ensures steps { StepsAreLow }
    ensures heard { ProjectionIsHeard }
{
    inside_alone();
}

/// The check of a trace finds nothing where it is accepted, and else its first wrong line, of which there is one.
pub fn checks_are_exact()
    ensures exact { ChecksAreExact }
    ensures faults { FaultsAreExact }
    ensures front { FaultsStay }
    ensures ways { WaysArePart }
{
    memory_is_never_told();
}
