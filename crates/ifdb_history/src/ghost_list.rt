// A list that contracts alone see.
ghost use Rattle.std.specs.Prelude.{◌≡◌, List, [], ◌∷◌, ◌++◌};
ghost use Rattle.std.specs.Borrow.{ftrue};

use std::marker::{Model, PhantomData};

/// A list of pairs that contracts alone see. It takes no memory, and its functions do nothing at run time.
#[derive(Drop)]
pub struct GhostList<A, B> {
    of: PhantomData<(A, B)>,
    pub ghost items: { List (A × B) },
}

impl<A, B> Model for GhostList<A, B> {
    ghost also_owns = { λ _. ftrue };
}

impl<A, B> GhostList<A, B> {
    /// No pairs.
    pub fn new() -> GhostList<A, B>
        ensures { result.items ≡ [] }
    {
        GhostList { of: PhantomData }
    }

    /// These pairs, and one more.
    pub fn and(&self, first: &A, second: &B) -> GhostList<A, B>
        ensures { result.items ≡ self.now.items ++ (first.now, second.now) ∷ [] }
    {
        GhostList { of: PhantomData }
    }
}
