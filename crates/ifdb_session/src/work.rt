// What a lent session was asked, as contracts see it.
ghost use Rattle.std.specs.Prelude.{◌≡◌, List, [], ◌∷◌, ◌++◌};
ghost use Rattle.std.specs.Borrow.{ftrue};
ghost use Rattle.ifdb_history.specs.declared.entry.Note.{Note};

use std::marker::Model;

/// The lines that a lent session was asked, which contracts alone see. It takes no memory, and its functions do nothing at run time.
#[derive(Drop)]
pub struct Work {
    pub ghost notes: { List Note },
}

impl Model for Work {
    ghost also_owns = { λ _. ftrue };
}

impl Work {
    /// No lines.
    pub fn new() -> Work
        ensures { result.notes ≡ [] }
    {
        Work {}
    }

    /// These lines, and one more, with whether there was no memory for it.
    pub fn and(&self, line: &[u8], is_refused: bool) -> Work
        ensures { result.notes ≡ self.now.notes
            ++ record { line = line.now; is_refused = is_refused } ∷ [] }
    {
        let _ = line;
        let _ = is_refused;
        Work {}
    }
}
