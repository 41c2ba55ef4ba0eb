// Laws of what the whole server tells, where it reads lines as it does: each function's contract is one, and it does nothing.
ghost use Rattle.ifdb_framing.specs.Framing.{OutputsReadBack, OutputsTellRefusals, RepliesAreFramed, StepsAreFramed};

/// No line of a reply holds a newline: whatever sessions ask whose lines hold none, and whatever bytes a script has, also where memory
/// is refused at some of its steps.
pub fn replies_are_framed()
    ensures steps { StepsAreFramed }
    ensures scripts { RepliesAreFramed }
{}

/// Two scripts whose outputs are equal bytes are told the same, reply by reply, and are refused memory at the same steps, as far as
/// no session's number and no count of rows is 2^64 or more.
pub fn outputs_read_back()
    ensures replies { OutputsReadBack }
    ensures refusals { OutputsTellRefusals }
{}
