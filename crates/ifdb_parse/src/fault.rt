// Why a line has no request.
use std::alloc::AllocError;

/// Why a line has no request.
#[derive(Clone, Copy, Debug, PartialEq, Eq)]
pub enum ParseFault {
    /// The line is none of the grammar. At this byte, counted from 0, stands no token and no blank, or a text begins that
    /// isn't closed, or bytes that are not UTF-8: the least such place. Where there is none, the first token begins here
    /// with which the tokens before it begin no line; or the line ends here, where all its tokens begin a line and are
    /// none.
    Syntax(usize),
    /// A name, a number, the open parentheses, the words NOT, a list or an expression pass their limit.
    Limit,
    /// An allocation was refused.
    OutOfMemory,
}

impl From<AllocError> for ParseFault {
    ghost use Rattle.std.specs.Prelude.{◌≡◌};
    ghost use Rattle.ifdb_parse.specs.declared.fault.ParseFault.{ParseFault};

    ghost from_gives = { λ _ fault. fault ≡ ParseFault.OutOfMemory };

    fn from(_: AllocError) -> Self {
        ParseFault::OutOfMemory
    }
}
