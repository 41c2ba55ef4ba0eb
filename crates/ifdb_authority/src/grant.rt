// Grants, and why one isn't made or taken away.
ghost use Rattle.std.specs.Cmp.Rules.{hashing};
ghost use Rattle.std.proofs.Common.{rules};

use ifdb_label::Tag;
use ifdb_value::Principal;
use std::alloc::AllocError;
use std::error::Error;
use std::fmt;
use std::hash::{Hash, Hasher};

/// That one principal granted a tag to another.
#[derive(Clone, Copy, Debug, PartialEq, Eq)]
pub struct Grant {
    /// Who granted.
    pub from: Principal,
    /// What was granted.
    pub tag: Tag,
    /// To whom.
    pub to: Principal,
}

impl Hash for Grant {
    ghost use Rattle.std.specs.Prelude.{◌++◌};
    ghost use Rattle.std.specs.Hash as fed;

    ghost hash_input = { λ g. fed.u64 g.from ++ fed.u64 g.tag ++ fed.u64 g.to };

    ghost respects_eq = { Prim.search (hashing, rules) };

    fn hash<H: Hasher>(&self, state: &mut H) {
        state.write_u64(self.from.0);
        state.write_u64(self.tag.0);
        state.write_u64(self.to.0);
    }
}

/// Why a tag was not granted.
#[derive(Clone, Copy, Debug, PartialEq, Eq)]
pub enum GrantFault {
    /// The grantor doesn't hold the tag.
    NoAuthority,
    /// An allocation was refused.
    OutOfMemory,
}

impl fmt::Display for GrantFault {
    fn fmt<W: fmt::Write>(&self, f: &mut fmt::Formatter<W>) -> fmt::Result {
        match self {
            GrantFault::NoAuthority => write!(f, "the grantor does not hold the tag"),
            GrantFault::OutOfMemory => write!(f, "out of memory"),
        }
    }
}

impl Error for GrantFault {}

impl From<AllocError> for GrantFault {
    ghost use Rattle.std.specs.Prelude.{◌≡◌};
    ghost use Rattle.ifdb_authority.specs.declared.grant.GrantFault.{GrantFault};

    ghost from_gives = { λ _ fault. fault ≡ GrantFault.OutOfMemory };

    fn from(_: AllocError) -> Self {
        GrantFault::OutOfMemory
    }
}

/// That the grant to be taken away doesn't stand.
#[derive(Clone, Copy, Debug, PartialEq, Eq)]
pub struct NotGranted;

impl fmt::Display for NotGranted {
    fn fmt<W: fmt::Write>(&self, f: &mut fmt::Formatter<W>) -> fmt::Result {
        write!(f, "no such grant stands")
    }
}

impl Error for NotGranted {}
