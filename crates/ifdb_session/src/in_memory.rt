// A service that stands in memory alone.
ghost use Rattle.std.specs.Prelude.{⊤, []};

use crate::{Records, Settles, SharedRoom};
use ifdb_io::Failed;
use ifdb_turn::{Pass, Turnstile};
use std::sync::Wait;

/// A service that stands in memory alone: nothing is recorded, and no reply waits. It takes no memory, and its calls do nothing.
#[derive(Clone, Copy, Debug, PartialEq, Eq)]
pub struct InMemory;

impl Records for InMemory {
    ghost first = { [] };

    ghost has = { λ _ _. ⊤ };

    ghost fits = { λ _ _. ⊤ };

    ghost count_of = { λ _. 0 };

    fn limit(&self) -> Option<usize> {
        None
    }

    fn push(&mut self, _text: &[u8]) {}

    fn count(&self) -> u64 {
        0
    }
}

impl Settles<InMemory> for InMemory {
    ghost ready = { λ _. ⊤ };

    ghost is_kept = { λ _ _. ⊤ };

    ghost has_failed = { λ _. ⊥ };

    ghost goes_on = { λ _ _. ⊤ };

    ghost has_shares = { λ _ _. ⊤ };

    fn settle<R: Wait>(
        &mut self,
        _rt: &R,
        _hall: &Turnstile<SharedRoom<InMemory>>,
        _pass: &mut Pass<SharedRoom<InMemory>>,
        _count: u64,
    ) -> Result<(), Failed> {
        Ok(())
    }

    fn split(&mut self) -> InMemory {
        InMemory
    }

    fn join(&mut self, _other: InMemory) {}

    ghost goes_itself = { λ _. tt };

    ghost goes_further = { λ _ _ _ _ _. tt };

    ghost stays_kept = { λ _ _ _ _ _. tt };

    ghost keeps_fewer = { λ _ _ _ _ _. tt };

    ghost stays_failed = { λ _ _ _ failed. failed };
}
