// What a request in a transaction comes to.
use ifdb_wire::Reply;

/// What a request in a transaction comes to, before the database has a part in it.
#[derive(Drop)]
pub enum Told {
    /// It is answered, from the transaction alone.
    Replies(Reply),
    /// The transaction is to be committed.
    Commits,
    /// The transaction is to be rolled back.
    RollsBack,
    /// The session says BYE, which ends the transaction.
    Leaves,
}
