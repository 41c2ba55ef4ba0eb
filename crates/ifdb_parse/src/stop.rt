// Why a rule was not read.
use std::alloc::AllocError;

/// Why a rule of the grammar was not read.
#[derive(Debug, Drop)]
pub(crate) enum Stop {
    /// So many lexemes are left, from the first that fits nothing on.
    Left(usize),
    /// An allocation was refused.
    OutOfMemory,
}

impl From<AllocError> for Stop {
    ghost use Rattle.std.specs.Prelude.{◌≡◌};
    ghost use Rattle.ifdb_parse.specs.declared.stop.Stop.{Stop};

    ghost from_gives = { λ _ stop. stop ≡ Stop.OutOfMemory };

    fn from(_: AllocError) -> Self {
        Stop::OutOfMemory
    }
}
