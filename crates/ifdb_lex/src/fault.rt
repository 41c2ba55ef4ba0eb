// Why a line has no tokens.
use std::alloc::AllocError;

/// Why a line has no tokens.
#[derive(Clone, Copy, Debug, PartialEq, Eq)]
pub enum LexFault {
    /// At this byte, counted from 0, stands no token and no blank, or a text begins that isn't closed, or bytes that are
    /// not UTF-8: the least such place of the line.
    At(usize),
    /// A name has more than 63 bytes, a number is above 2^63, more than 32 parentheses are open at once, or there are
    /// more than 64 words NOT.
    Limit,
    /// An allocation was refused.
    OutOfMemory,
}

impl From<AllocError> for LexFault {
    ghost use Rattle.std.specs.Prelude.{◌≡◌};
    ghost use Rattle.ifdb_lex.specs.declared.fault.LexFault.{LexFault};

    ghost from_gives = { λ _ fault. fault ≡ LexFault.OutOfMemory };

    fn from(_: AllocError) -> Self {
        LexFault::OutOfMemory
    }
}
