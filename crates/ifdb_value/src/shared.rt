// A value with several owners, which contracts see as the value.
ghost use Rattle.std.specs.Prelude.{◌≡◌, IfOk, IfSome};
ghost use Rattle.std.specs.Borrow.{LendsIf, sem};
ghost use Rattle.ifdb_value.specs.contracts.shared.Shared.{the_row};

use std::alloc::{AllocError, Global};
use std::marker::Model;
use std::sync::Arc;

/// A value that several owners share, and that its owner changes only where there is no other. Contracts see the value
/// itself, so a shared part of a tree is plain data to them, as a `Box` is. It goes with its last owner.
#[derive(Drop)]
pub struct Shared<T> {
    inner: Arc<T>,
}

impl<T> Model for Shared<T> {
    ghost use Rattle.std.specs.Prelude.{◌≡◌};

    ghost Value = { T };

    ghost coded = { T.code };

    ghost view = { λ s. s.inner.value };
}

impl<T> Shared<T> {
    /// The value.
    pub fn get(&self) -> &T
        ensures { result.now ≡ self.now }
    {
        &self.inner
    }

    /// The value, to be changed in place; `None` where it has another owner.
    pub fn get_mut(&mut self) -> Option<&mut T>
        ensures* writes_back { sem 𝓛 (LendsIf (the_row T.row) T.row self.entry result (λ w. w) self.old) }
        ensures value { IfSome result (λ value. value.now ≡ self.old) }
    {
        Arc::get_mut(&mut self.inner)
    }

    /// One more owner of the same value: one count rises, and no memory is taken. `AllocError` comes where the count is full.
    pub fn share(&self) -> Result<Shared<T>, AllocError>
        ensures { IfOk result (λ s. s ≡ self.now) }
    {
        Ok(Shared {
            inner: Arc::try_clone(&self.inner)?,
        })
    }
}

impl<T: Drop> Shared<T> {
    /// Takes a value into shared ownership, with one owner. `AllocError` comes where the allocation is refused.
    pub fn new(alloc: Global, value: T) -> Result<Shared<T>, AllocError>
        ensures { IfOk result (λ s. s ≡ value) }
    {
        Ok(Shared {
            inner: Arc::new(alloc, value)?,
        })
    }
}
