// A principal beside a tag that it may hold.
ghost use Rattle.std.specs.Cmp.Rules.{hashing};
ghost use Rattle.std.proofs.Common.{rules};

use ifdb_label::Tag;
use ifdb_value::Principal;
use std::hash::{Hash, Hasher};

/// A principal and a tag that it holds, or may hold.
#[derive(Clone, Copy, Debug, PartialEq, Eq)]
pub(crate) struct Holding {
    pub(crate) holder: Principal,
    pub(crate) tag: Tag,
}

impl Hash for Holding {
    ghost use Rattle.std.specs.Prelude.{◌++◌};
    ghost use Rattle.std.specs.Hash as fed;

    ghost hash_input = { λ h. fed.u64 h.holder ++ fed.u64 h.tag };

    ghost respects_eq = { Prim.search (hashing, rules) };

    fn hash<H: Hasher>(&self, state: &mut H) {
        state.write_u64(self.holder.0);
        state.write_u64(self.tag.0);
    }
}
