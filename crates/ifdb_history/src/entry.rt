// What one turn adds to a history.
use std::collections::LinkedList;

/// A line that a session asked in its transaction, away from the room. No value of this type is made: contracts alone see it.
pub struct Note {
    /// The line.
    pub line: LinkedList<u8>,
    /// Whether there was no memory for it.
    pub is_refused: bool,
}

/// What a turn did. No value of this type is made: contracts alone see it.
pub enum Kind {
    /// The next session was opened.
    Opened,
    /// A session asked a line; before it, in its transaction, those that it asked away from the room.
    Asked(u64, LinkedList<Note>, LinkedList<u8>),
    /// A session asked a line that only looks. It was answered after the turn, from what all saw then, unless there was no
    /// memory for the answer.
    Looked(u64, LinkedList<u8>),
    /// A session asked a line for which there was no memory.
    Refused(u64, LinkedList<u8>),
    /// A session left without BYE; before that, in its transaction, it asked these lines away from the room.
    Left(u64, LinkedList<Note>),
}

/// One entry of a history. No value of this type is made: contracts alone see it.
pub struct Entry {
    /// The place in the history, from 0, of the entry that opened the session.
    pub root: u64,
    /// What the turn did.
    pub kind: Kind,
}
