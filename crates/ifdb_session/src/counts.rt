// What is counted of the turns at a shared room.
ghost use Rattle.std.specs.Prelude.{◌≡◌};
ghost use Rattle.ifdb_session.specs.Counts.{counted, has_committed, has_refused, is_count};

use ifdb_wire::Reply;

/// What the history of a shared room comes to. Each number stops at 2^64 - 1.
#[derive(Clone, Copy, Debug, PartialEq, Eq)]
pub struct Counts {
    /// The sessions that were opened, up to 2^64 - 1.
    pub sessions: u64,
    /// The turns that the history tells of, up to 2^64 - 1: a session was opened, asked a line, was refused one for want of
    /// memory, or left without BYE.
    pub entries: u64,
    /// The commits, of transactions and of single statements, up to 2^64 - 1.
    pub commits: u64,
    /// The COMMITs that were refused, up to 2^64 - 1.
    pub refused: u64,
    /// The rows that there are, whoever sees them, up to 2^64 - 1.
    pub rows: u64,
}

/// What is seen of a session before or after a line of it, to tell what the line did.
#[derive(Clone, Copy, Debug, PartialEq, Eq)]
pub(crate) struct Glance {
    /// How many entries the log has.
    pub(crate) entries: u64,
    /// Whether the session has a transaction.
    pub(crate) in_transaction: bool,
}

impl Glance {
    /// Whether the line committed, by what is seen after it and by its reply: a public change adds to the log too, but it is
    /// told by no count, and isn't in a transaction.
    pub(crate) fn has_committed(self, after: Glance, reply: &Reply) -> bool
        ensures { result ≡ has_committed self after reply.now }
    {
        self.entries < after.entries && (self.in_transaction || is_count(reply))
    }

    /// Whether the line was a COMMIT that was refused: it ended the transaction.
    pub(crate) fn has_refused(self, after: Glance, reply: &Reply) -> bool
        ensures { result ≡ has_refused self after reply.now }
    {
        self.in_transaction && !after.in_transaction && matches!(reply, Reply::Refused(_))
    }
}

// Whether a reply counts rows.
fn is_count(reply: &Reply) -> bool
    ensures { result ≡ is_count reply.now }
{
    matches!(reply, Reply::Count(_))
}

/// A count, and one more if it is so, up to 2^64 - 1.
pub(crate) fn counted(count: u64, is_so: bool) -> u64
    ensures { result ≡ counted count is_so }
{
    if is_so {
        count.saturating_add(1)
    } else {
        count
    }
}
