// Why an expression, an item or a query has no value.
use std::alloc::AllocError;

/// Why an expression, an item or a query has no value.
#[derive(Clone, Copy, Debug, PartialEq, Eq)]
pub enum ExprFault {
    /// The result of an operation, a sum or a count isn't an `i64`.
    OutOfRange,
    /// An allocation was refused.
    OutOfMemory,
}

impl From<AllocError> for ExprFault {
    ghost use Rattle.std.specs.Prelude.{◌≡◌};
    ghost use Rattle.ifdb_expr.specs.declared.fault.ExprFault.{ExprFault};

    ghost from_gives = { λ _ fault. fault ≡ ExprFault.OutOfMemory };

    fn from(_: AllocError) -> Self {
        ExprFault::OutOfMemory
    }
}
