// Laws of the bytes that a run of the whole server writes: each function's contract is one, and it does nothing.
ghost use Rattle.ifdb_laws.specs.Bytes.{BytesTellWhatIsTold, RefusalsReadBack, RepliesReadBack};

/// Equal bytes show the same replies, one by one, to sessions of the same numbers; and tell alike at which steps memory was refused.
pub fn replies_read_back()
    ensures replies { RepliesReadBack }
    ensures refusals { RefusalsReadBack }
{}

/// What a script is told is a function of what it writes: so the bytes alone say at which steps memory was refused.
pub fn bytes_tell_what_is_told()
    ensures { BytesTellWhatIsTold }
{}
