// Laws of the rows of the whole server, in every run: each function's contract is one, and it does nothing.
ghost use Rattle.ifdb_laws.specs.RowLaws.{KeysApart, ParentsLive, RowsFit};

/// In every content of a run each live row's bound parents are live.
pub fn parents_live()
    ensures { ParentsLive }
{}

/// Beside a slot that comes to live by a commit, no other row of its key, unwritten by that commit, has a label that flows to its label.
pub fn keys_apart()
    ensures { KeysApart }
{}

/// In every run each row of the content fits its table, and so does each row that a session sees in its transaction: a value for each
/// column, of its kind; the key that its values give; for each foreign key a reference to the key that its values give; and a label of made
/// tags.
pub fn rows_fit()
    ensures { RowsFit }
{}
