// Why a SELECT has no answer.
use ifdb_expr::ExprFault;
use std::alloc::AllocError;

/// Why a SELECT has no answer.
#[derive(Clone, Copy, Debug, PartialEq, Eq)]
pub enum ViewFault {
    /// The owner of a view that it names doesn't hold a tag that the view declassifies.
    ViewAuthority,
    /// The result of an operation, a sum or a count isn't an `i64`.
    OutOfRange,
    /// An allocation was refused.
    OutOfMemory,
}

impl From<AllocError> for ViewFault {
    ghost use Rattle.std.specs.Prelude.{◌≡◌};
    ghost use Rattle.ifdb_view.specs.declared.fault.ViewFault.{ViewFault};

    ghost from_gives = { λ _ fault. fault ≡ ViewFault.OutOfMemory };

    fn from(_: AllocError) -> Self {
        ViewFault::OutOfMemory
    }
}

impl From<ExprFault> for ViewFault {
    ghost use Rattle.std.specs.Prelude.{◌≡◌};
    ghost use Rattle.ifdb_view.specs.Faults.{as_view_fault};

    ghost from_gives = { λ fault result. result ≡ as_view_fault fault };

    fn from(fault: ExprFault) -> Self {
        match fault {
            ExprFault::OutOfRange => ViewFault::OutOfRange,
            ExprFault::OutOfMemory => ViewFault::OutOfMemory,
        }
    }
}
