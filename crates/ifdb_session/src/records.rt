// What records the entries of a room.
ghost use Rattle.ifdb_redo.specs.declared.record.RedoRecord.{RedoRecord};
ghost use Rattle.ifdb_model.specs.Log.{Entry};
ghost use Rattle.ifdb_session.specs.Texts.{texts_for, IsTextOf};
ghost use Rattle.std.specs.Prelude.{◌≡◌, ◌<◌, ◌≤◌, ◌++◌, ◌∷◌, [], ℕ, List, None, IfSome, length};

/// What records the entries that turns add to the log of a room, as texts, in their order.
pub trait Records {
    /// The log that there was before the first record.
    ghost first: { List Entry };

    /// The texts of these records were recorded.
    ghost has: { Self → List RedoRecord → Type 0 };

    /// There is room for a text.
    ghost fits: { Self → List ℕ → Type 0 };

    /// How many records of a journal some texts come to.
    ghost count_of: { List (List ℕ) → ℕ };

    /// The most bytes of a text for which there is room. `None` where nothing is kept, so that any more records may be said to be
    /// recorded.
    fn limit(&self) -> Option<usize>
        ensures room { IfSome result (λ limit. (text : List ℕ)
            → 0 < length text → length text ≤ limit → fits self.now text) }
        ensures none { result ≡ None → (rs more : List RedoRecord)
            → has self.now rs → has self.now (rs ++ more) };

    /// Records a text behind the others. Takes no memory.
    fn push(&mut self, text: &[u8])
        requires { fits self.old text.now }
        ensures { (rs : List RedoRecord) (r : RedoRecord) → IsTextOf text.now r
            → has self.old rs → has self.new (rs ++ r ∷ []) };

    /// How many records of a journal were made in all.
    fn count(&self) -> u64
        ensures { (rs : List RedoRecord) → has self.now rs → result ≡ count_of (texts_for rs) };
}
