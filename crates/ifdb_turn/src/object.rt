//! What a turnstile guards.
ghost use Rattle.std.specs.Prelude.{ℕ, List};

/// An object whose state stands for a list of entries. It has no call and no law: an implementation says what its
/// states mean, and each turn that ends by `Turn::done` proves that the object stands for one entry more.
pub trait Object {
    /// What one turn did. Entries are for proofs, so no value of this type need ever be made.
    type Entry;

    /// This state stands for that history.
    ghost stands: { Self → List Self.Entry → Type 0 };

    /// The entry may come right after that history.
    ghost right: { List Self.Entry → Self.Entry → Type 0 };

    /// The place in the history, from 0, that the entry names as its root: its own place, or that of an earlier
    /// entry of the same pass, as the one that opened a session.
    ghost root: { Self.Entry → ℕ };
}
